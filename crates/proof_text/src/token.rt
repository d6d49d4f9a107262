//! Tokens at the front of some bytes.
ghost use Rattle.std.specs.Prelude.{◌≡◌, ◌-◌, ◌<◌, ◌≤◌, ℕ, List, ◌++◌, drop, length, IfOk, IfErr};
ghost use Rattle.diff_graph.specs.declared.lit.Lit.{Lit};
ghost use Rattle.proof_text.specs.Answers.{Answers};
ghost use Rattle.proof_trees.specs.declared.token.ProofTok.TheVariants as token;
ghost use Rattle.proof_text.specs.Fronts.{Found, Missing, found_as};
ghost use Rattle.proof_text.specs.Numbers.{number_before};
ghost use Rattle.proof_text.specs.Tokens.{literal_front, literals_front, numbers_front, some_literals_front};
ghost use Rattle.proof_text.specs.Tokens.{token_front};

use crate::Unread;
use crate::number::{before, number, offset};
use ask_core::{MAX_PICKS, Picks};
use diff_graph::Lit;
use proof_trees::{Literals, MAX_LITERALS, ProofTok};
use std::alloc::Global;

// Puts the numbers of a cycle, up to its `;`, after those that came.
fn numbers<'a>(bytes: &'a [u8], picks: &mut Picks) -> Result<&'a [u8], Unread>
    requires { length picks.old < MAX_PICKS }
    ensures found { IfOk result (λ rest. (ns : List ℕ) × (picks.new ≡ picks.old ++ ns)
        × (numbers_front (MAX_PICKS - length picks.old) bytes.now ≡ Found ns rest.now)) }
    ensures missing { IfErr result (λ why. numbers_front (MAX_PICKS - length picks.old) bytes.now ≡ Missing why) }
{
    let (first, rest) = match number(10_000, bytes) {
        Ok(found) => found,
        Err(why) => return Err(why),
    };
    picks.push(first);
    let Some((byte, behind)) = rest.split_first() else {
        return Err(Unread::Cut);
    };
    if *byte == b';' {
        return Ok(behind);
    }
    if *byte != b',' {
        return Err(Unread::Misspelt);
    }
    if picks.as_slice().len() == MAX_PICKS {
        return Err(Unread::Misspelt);
    }
    numbers(behind, picks)
}

fn literal<'a>(bytes: &'a [u8]) -> Result<(Lit, &'a [u8]), Unread>
    ensures found { IfOk result (λ x. literal_front bytes.now ≡ Found x.0 x.1.now) }
    ensures missing { IfErr result (λ why. literal_front bytes.now ≡ Missing why) }
{
    let (x, rest) = before(b',', 10, bytes)?;
    let (y, more) = before(b',', 10, rest)?;
    let (k, behind) = offset(more)?;
    Ok((
        Lit {
            x: x as u8,
            y: y as u8,
            k,
        },
        behind,
    ))
}

// Puts the literals of a lemma, up to its `;`, after those that came.
fn some_literals<'a>(bytes: &'a [u8], literals: &mut Literals) -> Result<&'a [u8], Unread>
    requires { length literals.old < MAX_LITERALS }
    ensures found { IfOk result (λ rest. (ls : List Lit) × (literals.new ≡ literals.old ++ ls)
        × (some_literals_front (MAX_LITERALS - length literals.old) bytes.now ≡ Found ls rest.now)) }
    ensures missing { IfErr result (λ why. some_literals_front (MAX_LITERALS - length literals.old) bytes.now
        ≡ Missing why) }
{
    let (first, rest) = match literal(bytes) {
        Ok(found) => found,
        Err(why) => return Err(why),
    };
    literals.push(first);
    let Some((byte, behind)) = rest.split_first() else {
        return Err(Unread::Cut);
    };
    if *byte == b';' {
        return Ok(behind);
    }
    if *byte != b'/' {
        return Err(Unread::Misspelt);
    }
    if literals.as_slice().len() == MAX_LITERALS {
        return Err(Unread::Misspelt);
    }
    some_literals(behind, literals)
}

fn cycle<'a>(alloc: Global, bytes: &'a [u8], tok: &mut ProofTok) -> Result<&'a [u8], Unread>
    ensures found { IfOk result (λ rest. found_as token.Cycle (numbers_front MAX_PICKS bytes.now)
        ≡ Found tok.new rest.now) }
    ensures missing { IfErr result (λ why. found_as token.Cycle (numbers_front MAX_PICKS bytes.now) ≡ Missing why) }
{
    let mut picks = Picks::new(alloc);
    let rest = numbers(bytes, &mut picks)?;
    *tok = ProofTok::Cycle(picks);
    Ok(rest)
}

fn lemma<'a>(bytes: &'a [u8], tok: &mut ProofTok) -> Result<&'a [u8], Unread>
    ensures found { IfOk result (λ rest. found_as token.Lemma (literals_front bytes.now) ≡ Found tok.new rest.now) }
    ensures missing { IfErr result (λ why. found_as token.Lemma (literals_front bytes.now) ≡ Missing why) }
{
    let Some((first, behind)) = bytes.split_first() else {
        return Err(Unread::Cut);
    };
    let mut literals = Literals::new();
    if *first == b';' {
        *tok = ProofTok::Lemma(literals);
        return Ok(behind);
    }
    let rest = some_literals(bytes, &mut literals)?;
    *tok = ProofTok::Lemma(literals);
    Ok(rest)
}

fn cite<'a>(bytes: &'a [u8], tok: &mut ProofTok) -> Result<&'a [u8], Unread>
    ensures found { IfOk result (λ rest. found_as token.Cite (number_before 59 100000 bytes.now)
        ≡ Found tok.new rest.now) }
    ensures missing { IfErr result (λ why. found_as token.Cite (number_before 59 100000 bytes.now) ≡ Missing why) }
{
    let (number, rest) = before(b';', 100_000, bytes)?;
    *tok = ProofTok::Cite(number);
    Ok(rest)
}

// Puts the token at the front of the bytes into `tok`, and gives the bytes after it.
fn token<'a>(alloc: Global, bytes: &'a [u8], tok: &mut ProofTok) -> Result<&'a [u8], Unread>
    ensures found { IfOk result (λ rest. token_front bytes.now ≡ Found tok.new rest.now) }
    ensures missing { IfErr result (λ why. token_front bytes.now ≡ Missing why) }
{
    let Some((first, rest)) = bytes.split_first() else {
        return Err(Unread::Cut);
    };
    match *first {
        b'?' => {
            *tok = ProofTok::Ask;
            Ok(rest)
        }
        b'.' => {
            *tok = ProofTok::Holds;
            Ok(rest)
        }
        b'x' => cycle(alloc, rest, tok),
        b'l' => lemma(rest, tok),
        b'c' => cite(rest, tok),
        _ => Err(Unread::Misspelt),
    }
}

/// Reads the token at a place of the bytes into `tok`: how many bytes stand before what comes after it. Where none is
/// there it is not said what `tok` is.
pub fn read_token(
    alloc: Global,
    bytes: &[u8],
    at: usize,
    tok: &mut ProofTok,
) -> Result<usize, Unread>
    requires { at ≤ length bytes.now }
    ensures { Answers token_front bytes.now at tok.new result }
{
    let rest = token(alloc, &bytes[at..], tok)?;
    Ok(bytes.len() - rest.len())
}
