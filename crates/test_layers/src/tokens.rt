//! The tokens of a text with their places, and the bytes of tokens. Rows of more of them are `proofs/TokenRows.antt`.
use fn_rules::{Cmp, Side, Sort};
use fn_tokens::{FrontComparison, FrontOffset, Lexer, Placed, Sign, Token, Word, lex, spell};
use std::test::Fail;

fn placed(token: Token, line: u32, column: u32) -> Placed {
    Placed {
        token,
        line,
        column,
    }
}

fn are_those_of_or(tokens: &[Placed]) -> bool {
    tokens
        == [
            placed(Token::Known(Word::Or), 2, 1),
            placed(Token::LineEnd, 2, 3),
            placed(Token::FileEnd, 2, 3),
        ]
        .as_slice()
}

#[test]
fn a_text_is_read_as_its_tokens(rt: HostRuntime) -> Result<(), Fail> {
    let found = lex(rt.alloc(), b"# none\nor")?;
    assert!(rt; are_those_of_or(found.as_slice()));
    Ok(())
}

#[test]
fn a_lexer_finds_one_token_after_another(rt: HostRuntime) -> Result<(), Fail> {
    let mut lexer = Lexer::new(b"# none\nor");
    let mut found = Vec::new(rt.alloc());
    for _turn in 0..4 {
        if let Some(token) = lexer.next() {
            found.push(token)?;
        }
    }
    assert!(rt; are_those_of_or(found.as_slice()));
    Ok(())
}

fn is_less(found: Option<FrontComparison>) -> bool {
    match found {
        Some(FrontComparison { sort, left, cmp }) => {
            sort == Sort::Pos && left == Side::First && cmp == Cmp::Lt
        }
        None => false,
    }
}

fn is_less_by(number: u8, found: Option<FrontOffset>) -> bool {
    match found {
        Some(offset) => offset.sign == Sign::Minus && offset.number == number,
        None => false,
    }
}

#[test]
fn a_comparison_and_its_offset_are_passed_at_once(rt: HostRuntime) -> Result<(), Fail> {
    let mut lexer = Lexer::new(b" p1 < p2 - 59 or");
    assert!(rt; lexer.offset().is_none());
    assert!(rt; is_less(lexer.comparison()));
    assert!(rt; is_less_by(59, lexer.offset()));
    match lexer.next() {
        Some(next) => assert!(rt; next == placed(Token::Known(Word::Or), 1, 15)),
        None => assert!(rt; false),
    }
    assert!(rt; Lexer::new(b"p1<p2 ").comparison().is_none());
    Ok(())
}

#[test]
fn tokens_are_spelled_with_one_space_between_two(rt: HostRuntime) -> Result<(), Fail> {
    let tokens = [Token::Known(Word::End), Token::Colon, Token::LineEnd];
    let text = spell(rt.alloc(), &tokens)?;
    assert!(rt; text.as_slice() == b"end :\n".as_slice());
    Ok(())
}
