//! Numbers at the front of some bytes.
ghost use Rattle.std.specs.Prelude.{◌≡◌, ◌*◌, ◌<◌, ◌≤◌, IfOk, IfErr};
ghost use Rattle.proof_text.specs.Fronts.{Found, Missing};
ghost use Rattle.proof_text.specs.Numbers.{digits_front, number_before, number_front, offset_front, positive_front};

use crate::Unread;

// The number whose digits so far came.
#[inline(always)]
fn digits<'a>(short: u32, number: u32, bytes: &'a [u8]) -> Result<(u32, &'a [u8]), Unread>
    requires few { short ≤ 100000 }
    requires number { number < short * 10 }
    ensures found { IfOk result (λ x. digits_front short number bytes.now ≡ Found x.0 x.1.now) }
    ensures most { IfOk result (λ x. x.0 < short * 10) }
    ensures missing { IfErr result (λ why. digits_front short number bytes.now ≡ Missing why) }
{
    let Some((first, rest)) = bytes.split_first() else {
        return Err(Unread::Cut);
    };
    if !first.is_ascii_digit() {
        return Ok((number, bytes));
    }
    if number == 0 || number >= short {
        return Err(Unread::Misspelt);
    }
    digits(short, number * 10 + u32::from(*first - b'0'), rest)
}

/// A number, to which one below `short` may have a further digit.
pub(crate) fn number<'a>(short: u32, bytes: &'a [u8]) -> Result<(u32, &'a [u8]), Unread>
    requires some { 1 ≤ short }
    requires few { short ≤ 100000 }
    ensures found { IfOk result (λ x. number_front short bytes.now ≡ Found x.0 x.1.now) }
    ensures most { IfOk result (λ x. x.0 < short * 10) }
    ensures missing { IfErr result (λ why. number_front short bytes.now ≡ Missing why) }
{
    let Some((first, rest)) = bytes.split_first() else {
        return Err(Unread::Cut);
    };
    if !first.is_ascii_digit() {
        return Err(Unread::Misspelt);
    }
    digits(short, u32::from(*first - b'0'), rest)
}

/// A number and the byte that ends it.
pub(crate) fn before<'a>(stop: u8, short: u32, bytes: &'a [u8]) -> Result<(u32, &'a [u8]), Unread>
    requires some { 1 ≤ short }
    requires few { short ≤ 100000 }
    ensures found { IfOk result (λ x. number_before stop short bytes.now ≡ Found x.0 x.1.now) }
    ensures most { IfOk result (λ x. x.0 < short * 10) }
    ensures missing { IfErr result (λ why. number_before stop short bytes.now ≡ Missing why) }
{
    let (number, rest) = number(short, bytes)?;
    let Some((byte, behind)) = rest.split_first() else {
        return Err(Unread::Cut);
    };
    if stop != *byte {
        return Err(Unread::Misspelt);
    }
    Ok((number, behind))
}

// A number other than 0.
fn positive<'a>(bytes: &'a [u8]) -> Result<(u32, &'a [u8]), Unread>
    ensures found { IfOk result (λ x. positive_front bytes.now ≡ Found x.0 x.1.now) }
    ensures most { IfOk result (λ x. x.0 < 10000) }
    ensures missing { IfErr result (λ why. positive_front bytes.now ≡ Missing why) }
{
    let Some((first, _)) = bytes.split_first() else {
        return Err(Unread::Cut);
    };
    if *first == b'0' {
        return Err(Unread::Misspelt);
    }
    number(1_000, bytes)
}

/// An integer of at most four digits, after `-` where it is negative.
pub(crate) fn offset<'a>(bytes: &'a [u8]) -> Result<(i32, &'a [u8]), Unread>
    ensures found { IfOk result (λ x. offset_front bytes.now ≡ Found x.0 x.1.now) }
    ensures missing { IfErr result (λ why. offset_front bytes.now ≡ Missing why) }
{
    let Some((first, rest)) = bytes.split_first() else {
        return Err(Unread::Cut);
    };
    if *first == b'-' {
        let (amount, behind) = positive(rest)?;
        return Ok((-(amount as i32), behind));
    }
    let (amount, behind) = number(1_000, bytes)?;
    Ok((amount as i32, behind))
}
