//! The parts of certificates, read byte by byte and in pieces.
ghost use Rattle.std.specs.Prelude.{◌≡◌, ◌+◌, ◌≤◌, IfOk, length};
ghost use Rattle.cert_text.specs.Reading.{fed_to};

use cert_reader::Reader;
use cert_text::{CertError, Item};
use fn_rules::ObName;
use ot_model::Kind;
use std::alloc::{AllocError, Global};
use std::test::Fail;

// A reader of the certificates of deletions. Where it refuses bytes are rows of `checks/tables`.
fn reader(alloc: Global) -> Result<Reader, AllocError>
    ensures { IfOk result (λ r. fed_to r ≡ 0) }
{
    let tp1 = vec![in alloc; ObName::Pair(Kind::Del, Kind::Del)]?;
    let tp2 = vec![in alloc; ObName::Triple(Kind::Del, Kind::Del, Kind::Del)]?;
    Ok(Reader::new(alloc, tp1, tp2))
}

/// What a call gives.
type Given = Result<Option<Item>, CertError>;

// A line for how many bytes were taken, and what they gave.
fn push_line(
    alloc: Global,
    told: &mut String,
    taken: usize,
    given: &Given,
) -> Result<(), AllocError> {
    let line = format!(in alloc; "{taken} {given:?}\n")?;
    told.push_str(&line)
}

// What the bytes give, one by one: a line for each part and each refusal.
fn tell_bytes(
    alloc: Global,
    reader: &mut Reader,
    bytes: &[u8],
    told: &mut String,
) -> Result<(), AllocError>
    requires few { length bytes.now ≤ 1000 }
    requires fresh { fed_to reader.old ≡ 0 }
{
    for byte in bytes {
        let given = reader.feed(*byte);
        if !matches!(given, Ok(None)) {
            push_line(alloc, told, 1, &given)?;
        }
    }
    Ok(())
}

// The same, and whether the end is refused then.
fn told_by_bytes(alloc: Global, bytes: &[u8]) -> Result<(String, bool), AllocError>
    requires { length bytes.now ≤ 1000 }
{
    let mut reader = reader(alloc)?;
    let mut told = String::new(alloc);
    tell_bytes(alloc, &mut reader, bytes, &mut told)?;
    let is_refused = reader.finish() == Err(CertError::Trailing(37));
    Ok((told, is_refused))
}

#[test]
fn bytes_give_parts_one_after_another(rt: HostRuntime) -> Result<(), Fail> {
    let (told, is_refused) = told_by_bytes(
        rt.alloc(),
        b"otcert 1 tp1\nob del del\n?.x10,2;\nend\n?",
    )?;
    let want = "\
        1 Ok(Some(Item { offset: 0, part: Header(Tp1) }))\n\
        1 Ok(Some(Item { offset: 13, part: Ob(0) }))\n\
        1 Ok(Some(Item { offset: 24, part: Tok(Ask) }))\n\
        1 Ok(Some(Item { offset: 25, part: Tok(Holds) }))\n\
        1 Ok(Some(Item { offset: 26, part: Tok(Cycle(Picks { numbers: [10, 2] })) }))\n\
        1 Ok(Some(Item { offset: 32, part: LineEnd }))\n\
        1 Ok(Some(Item { offset: 33, part: End }))\n\
        1 Err(Trailing(37))\n\
    ";
    assert!(rt; told.as_str() == want && is_refused);
    Ok(())
}

// The bytes from one place up to another one, as far as there are any.
fn between(bytes: &[u8], at: usize, end: usize) -> &[u8]
    requires { at ≤ length bytes.now }
    ensures { length result.now + at ≤ length bytes.now }
{
    &bytes[at..usize::max(at, usize::min(end, bytes.len()))]
}

// What a reader takes of pieces that end at these places, and what it gives.
fn tell_pieces(
    alloc: Global,
    reader: &mut Reader,
    bytes: &[u8],
    ends: &[usize],
    told: &mut String,
) -> Result<(), AllocError>
    requires few { length bytes.now ≤ 1000 }
    requires fresh { fed_to reader.old ≡ 0 }
{
    let mut at = 0;
    for end in ends {
        let (taken, given) = reader.feed_piece(between(bytes, at, *end));
        at += taken;
        push_line(alloc, told, taken, &given)?;
    }
    Ok(())
}

fn told_up_to(alloc: Global, bytes: &[u8], ends: &[usize]) -> Result<String, AllocError>
    requires { length bytes.now ≤ 1000 }
{
    let mut reader = reader(alloc)?;
    let mut told = String::new(alloc);
    tell_pieces(alloc, &mut reader, bytes, ends, &mut told)?;
    Ok(told)
}

#[test]
fn a_piece_is_taken_up_to_the_end_of_a_part(rt: HostRuntime) -> Result<(), Fail> {
    let text = b"otcert 1 tp1\nob del del\n?x11,1;x1,2,3;.\n";
    let told = told_up_to(rt.alloc(), text, &[11, 16, 26, 26, 27, 33, 31, 39, 40, 40])?;
    let want = "\
        11 Ok(None)\n\
        2 Ok(Some(Item { offset: 0, part: Header(Tp1) }))\n\
        11 Ok(Some(Item { offset: 13, part: Ob(0) }))\n\
        1 Ok(Some(Item { offset: 24, part: Tok(Ask) }))\n\
        2 Ok(None)\n\
        4 Ok(Some(Item { offset: 25, part: Tok(Cycle(Picks { numbers: [11, 1] })) }))\n\
        0 Ok(None)\n\
        7 Ok(Some(Item { offset: 31, part: Tok(Cycle(Picks { numbers: [1, 2, 3] })) }))\n\
        1 Err(BadToken(38))\n\
        1 Err(BadToken(38))\n\
    ";
    assert!(rt; told.as_str() == want);
    Ok(())
}
