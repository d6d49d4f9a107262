//! From tokens to their bytes.

ghost use Rattle.std.specs.Prelude.{◌≡◌, ◌++◌, [], ◌∷◌, IfOk, OnOk};
ghost use Rattle.std.specs.Fmt.{decimal};
ghost use Rattle.fn_tokens.specs.Spelling.{token_bytes, ends_line, space_before, spelled, LinesLexBack, LinesAreShort};

use crate::NoMemory;
use crate::token::{Sign, Token};
use fn_rules::Cmp;
use std::alloc::Global;

#[tactic(auto, using(std::proofs::lemmas::Fmt::decimal_step, std::proofs::lemmas::Fmt::decimal_digit))]
fn push_number(out: &mut Vec<u8>, number: u8) -> Result<(), NoMemory>
    ensures { OnOk result (out.new.items ≡ out.old.items ++ decimal number) }
{
    if number < 10 {
        out.push(b'0' + number)?;
        Ok(())
    } else {
        push_number(out, number / 10)?;
        out.push(b'0' + number % 10)?;
        Ok(())
    }
}

fn comparison(cmp: Cmp) -> &'static [u8]
    ensures { result.now ≡ token_bytes (Token.Comparison cmp) }
{
    match cmp {
        Cmp::Lt => b"<",
        Cmp::Le => b"<=",
        Cmp::Eq => b"=",
    }
}

fn sign_byte(sign: Sign) -> u8
    ensures { result ∷ [] ≡ token_bytes (Token.Sign sign) }
{
    match sign {
        Sign::Plus => b'+',
        Sign::Minus => b'-',
    }
}

fn push_bytes(out: &mut Vec<u8>, token: Token) -> Result<(), NoMemory>
    ensures { OnOk result (out.new.items ≡ out.old.items ++ token_bytes token) }
{
    match token {
        Token::Byte => Ok(()),
        Token::Unknown => Ok(()),
        Token::Known(word) => {
            out.extend_from_slice(word.spelling())?;
            Ok(())
        }
        Token::Number(number) => {
            push_number(out, number)?;
            Ok(())
        }
        Token::Comparison(cmp) => {
            out.extend_from_slice(comparison(cmp))?;
            Ok(())
        }
        Token::Sign(sign) => {
            out.push(sign_byte(sign))?;
            Ok(())
        }
        Token::Open => {
            out.push(b'(')?;
            Ok(())
        }
        Token::Close => {
            out.push(b')')?;
            Ok(())
        }
        Token::Colon => {
            out.push(b':')?;
            Ok(())
        }
        Token::LineEnd => {
            out.push(b'\n')?;
            Ok(())
        }
        Token::FileEnd => Ok(()),
    }
}

fn is_line_end(token: Token) -> bool
    ensures { result ≡ ends_line token }
{
    match token {
        Token::LineEnd => true,
        _ => false,
    }
}

fn push_spaced(out: &mut Vec<u8>, begins: bool, token: Token) -> Result<(), NoMemory>
    ensures { OnOk result (out.new.items ≡ out.old.items ++ (space_before begins token ++ token_bytes token)) }
{
    if !begins && !is_line_end(token) {
        out.push(b' ')?;
    }
    push_bytes(out, token)?;
    Ok(())
}

/// The bytes of tokens in lines, with one space between two tokens of a line.
pub fn spell(alloc: Global, tokens: &[Token]) -> Result<Vec<u8>, NoMemory>
    ensures { IfOk result (λ v. v.items ≡ spelled tokens.now) }
{
    let mut out = Vec::new(alloc);
    let mut begins = true;
    for token in tokens {
        push_spaced(&mut out, begins, *token)?;
        begins = is_line_end(*token);
    }
    Ok(out)
}

/// Tokens in whole lines are read back from the bytes that spell them, of which each takes 8 at most.
pub fn lines_lex_back()
    ensures back { LinesLexBack }
    ensures short { LinesAreShort }
{}
