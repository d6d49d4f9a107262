//! Which tokens may stand where one is wrong.

ghost use Rattle.std.specs.Prelude.{◌≡◌, IfOk};
ghost use Rattle.fn_hints.specs.Standing.{can_stand, tokens_at, numbers_at};

use fn_rules::{Cmp, Side, Sort};
use fn_text::{NoMemory, Placed, Sign, Token, Word, WrongToken};
use fn_tokens::Want;
use ot_model::{Kind, Mode};
use std::alloc::Global;

/// Each word of the languages, each sign, and the two ends: every token but numbers, bytes that begin no token, and
/// words of no language.
pub const TOKENS: [Token; 36] = [
    Token::Known(Word::Otfn),
    Token::Known(Word::Text),
    Token::Known(Word::Mode(Mode::Plain)),
    Token::Known(Word::Mode(Mode::Tomb)),
    Token::Known(Word::Kinds),
    Token::Known(Word::Kind(Kind::Ins)),
    Token::Known(Word::Kind(Kind::Del)),
    Token::Known(Word::Kind(Kind::Upd)),
    Token::Known(Word::Assume),
    Token::Known(Word::Sites),
    Token::Known(Word::Chars),
    Token::Known(Word::Differ),
    Token::Known(Word::Block),
    Token::Known(Word::Case),
    Token::Known(Word::Nop),
    Token::Known(Word::End),
    Token::Known(Word::Thing(Sort::Pos, Side::First)),
    Token::Known(Word::Thing(Sort::Pos, Side::Second)),
    Token::Known(Word::Thing(Sort::Site, Side::First)),
    Token::Known(Word::Thing(Sort::Site, Side::Second)),
    Token::Known(Word::Thing(Sort::Char, Side::First)),
    Token::Known(Word::Thing(Sort::Char, Side::Second)),
    Token::Known(Word::True),
    Token::Known(Word::Not),
    Token::Open,
    Token::Known(Word::And),
    Token::Known(Word::Or),
    Token::Comparison(Cmp::Lt),
    Token::Comparison(Cmp::Le),
    Token::Comparison(Cmp::Eq),
    Token::Sign(Sign::Plus),
    Token::Sign(Sign::Minus),
    Token::Close,
    Token::Colon,
    Token::LineEnd,
    Token::FileEnd,
];

/// Which numbers may stand in a place.
#[derive(Clone, Copy, PartialEq, Eq)]
pub enum Numbers {
    NoNumber,

    /// 1 and 2.
    OfLanguages,

    /// Those from 0 to 99.
    UpTo99,
}

/// Whether a token can go on in place of the wrong one.
fn can_stand(wrong: WrongToken, token: Token) -> bool
    ensures { result ≡ can_stand wrong token }
{
    let at = Placed { token, ..wrong.at };
    wrong.control.move_for(&at).is_some()
}

/// The tokens that can go on in place of the wrong one, but for numbers.
pub(crate) fn tokens_at(alloc: Global, wrong: WrongToken) -> Result<Vec<Token>, NoMemory>
    ensures { IfOk result (λ tokens. tokens.items ≡ tokens_at wrong) }
{
    TOKENS
        .iter()
        .copied()
        .filter(|token| can_stand(wrong, *token))
        .collect(alloc)
}

/// The numbers that can go on.
pub(crate) fn numbers_at(want: Want) -> Numbers
    ensures { result ≡ numbers_at want }
{
    match want {
        Want::Version => Numbers::OfLanguages,
        Want::Number(..) | Want::ResultNumber(..) => Numbers::UpTo99,
        _ => Numbers::NoNumber,
    }
}
