//! From bytes to tokens, in one pass.

ghost use Rattle.std.specs.Prelude.{◌≡◌, ◌+◌, ◌^◌, ◌<◌, ◌≤◌, ◌++◌, [], drop, length, slice_index, option_to_list};
ghost use Rattle.std.specs.Prelude.{IfOk, IfNone, IfSome};
ghost use Rattle.std.specs.List.{prefix_len};
ghost use Rattle.fn_tokens.specs.Tokens.{tokens_in, TokensEndFiles, is_letter, is_digit, is_blank, is_in, number_from};
ghost use Rattle.fn_tokens.specs.Tokens.{sign_token, front_less, front_word, front_number, front_of, tokens_at};
ghost use Rattle.fn_tokens.specs.Comparisons.{BeginsWith, BeginsWithOffset};
ghost use Rattle.fn_tokens.specs.Tokens.{cursor_after, placed_at, line_end_at, stepped, below, tokens_from, IsPlaceIn};

use crate::NoMemory;
use crate::comparison::{FrontComparison, FrontOffset, comparison_front, offset_front};
use crate::token::{Placed, Sign, Token, word_of};
use fn_rules::Cmp;
use std::alloc::Global;
use std::marker::Model;

/// Where the lexer stands.
#[derive(Clone, Copy)]
pub(crate) struct Cursor {
    /// How many further bytes belong to the token or comment that began last.
    skip: usize,

    /// The line and the column of the next byte.
    line: u32,
    column: u32,

    /// Whether a token began on this line.
    after: bool,
}

/// What several bytes in a row may be.
#[derive(Clone, Copy)]
pub(crate) enum Run {
    /// Letters and digits.
    Word,

    /// Digits.
    Number,

    /// All bytes of a line.
    Comment,
}

/// A token, and how many bytes it has behind its first.
#[derive(Clone, Copy)]
pub(crate) struct FrontToken {
    token: Token,
    more: usize,
}

impl Cursor {
    /// The place of the first byte.
    const FIRST: Cursor = Cursor {
        line: 1,
        column: 1,
        after: false,
        skip: 0,
    };

    /// The next place of the same line.
    fn stepped(self, after: bool, skip: usize) -> Cursor
        requires { self.column < 2 ^ 31 }
        ensures { result ≡ stepped self after skip }
    {
        Cursor {
            line: self.line,
            column: self.column + 1,
            after,
            skip,
        }
    }

    /// The first place of the next line.
    fn below(self) -> Cursor
        requires { self.line < 2 ^ 31 }
        ensures { result ≡ below self }
    {
        Cursor {
            line: self.line + 1,
            ..Cursor::FIRST
        }
    }

    /// The place behind the bytes that belong to the token or comment that began last.
    #[tactic(auto, using(crate::proofs::Passing::passed))]
    fn passed(self, bytes: &[u8]) -> Cursor
        requires within { self.skip ≤ length bytes.now }
        requires few { self.column + self.skip < 2 ^ 32 }
        ensures tokens { tokens_from self bytes.now ≡ tokens_from result (drop self.skip bytes.now) }
        ensures free { result.skip ≡ 0 }
        ensures line { result.line ≡ self.line }
        ensures column { result.column ≡ self.column + self.skip }
    {
        Cursor {
            column: self.column + self.skip as u32,
            skip: 0,
            ..self
        }
    }

    /// A token that begins here.
    fn with(self, token: Token) -> Placed
        ensures { result ≡ placed_at self token }
    {
        Placed {
            token,
            line: self.line,
            column: self.column,
        }
    }

    /// The end of a line here, where the line has a token.
    fn line_end(self) -> Option<Placed>
        ensures { option_to_list result ≡ line_end_at self }
    {
        if self.after {
            Some(self.with(Token::LineEnd))
        } else {
            None
        }
    }
}

fn letter(byte: u8) -> bool
    ensures { result ≡ is_letter byte }
{
    b'a' <= byte && byte <= b'z'
}

fn digit(byte: u8) -> bool
    ensures { result ≡ is_digit byte }
{
    b'0' <= byte && byte <= b'9'
}

fn blank(byte: u8) -> bool
    ensures { result ≡ is_blank byte }
{
    byte == b' ' || byte == b'\t' || byte == b'\r'
}

impl Run {
    fn has(self, byte: u8) -> bool
        ensures { result ≡ is_in self byte }
    {
        match self {
            Run::Word => letter(byte) || digit(byte),
            Run::Number => digit(byte),
            Run::Comment => byte != b'\n',
        }
    }

    /// How many bytes at the front belong to the run.
    fn len(self, bytes: &[u8]) -> usize
        ensures count { result ≡ prefix_len (is_in self) bytes.now }
        ensures within { result ≤ length bytes.now }
    {
        for (i, byte) in bytes.iter().enumerate() {
            if !self.has(*byte) {
                return i;
            }
        }
        bytes.len()
    }
}

/// The number that digits write, where all above 99 are told as 100.
fn number_of(digits: &[u8]) -> Token
    ensures { result ≡ Token.Number (number_from 0 digits.now) }
{
    let mut number = 0u32;
    for digit in digits {
        number = (10 * number + digit.saturating_sub(b'0') as u32).min(100);
    }
    Token::Number(number as u8)
}

/// The token of a sign of one byte.
fn sign_of(byte: u8) -> Token
    ensures { result ≡ sign_token byte }
{
    match byte {
        b'=' => Token::Comparison(Cmp::Eq),
        b'+' => Token::Sign(Sign::Plus),
        b'-' => Token::Sign(Sign::Minus),
        b'(' => Token::Open,
        b')' => Token::Close,
        b':' => Token::Colon,
        _ => Token::Byte,
    }
}

/// The sign at a `<`, from what is behind it.
fn less_of(rest: &[u8]) -> FrontToken
    ensures value { result ≡ front_less rest.now }
    ensures within { result.more ≤ length rest.now }
{
    match rest {
        [b'=', ..] => FrontToken {
            token: Token::Comparison(Cmp::Le),
            more: 1,
        },
        _ => FrontToken {
            token: Token::Comparison(Cmp::Lt),
            more: 0,
        },
    }
}

/// The word at a letter.
#[tactic(auto, using(crate::proofs::Lexing::take_first))]
fn word_front(bytes: &[u8]) -> FrontToken
    requires { 0 < length bytes.now }
    ensures value { result ≡ front_word (slice_index bytes.now 0) (drop 1 bytes.now)
        (prefix_len (is_in Run.Word) (drop 1 bytes.now)) }
    ensures within { result.more < length bytes.now }
{
    let more = Run::Word.len(&bytes[1..]);
    let token = word_of(&bytes[..more + 1]);
    FrontToken { token, more }
}

/// The number at a digit.
#[tactic(auto, using(crate::proofs::Lexing::take_first))]
fn number_front(bytes: &[u8]) -> FrontToken
    requires { 0 < length bytes.now }
    ensures value { result ≡ front_number (slice_index bytes.now 0) (drop 1 bytes.now)
        (prefix_len (is_in Run.Number) (drop 1 bytes.now)) }
    ensures within { result.more < length bytes.now }
{
    let more = Run::Number.len(&bytes[1..]);
    let token = number_of(&bytes[..more + 1]);
    FrontToken { token, more }
}

/// The longest token at the front of bytes whose first one is neither a blank, a line's end nor `#`.
#[tactic(auto, unfolding(crate::specs::Tokens::front_of))]
fn longest(bytes: &[u8]) -> FrontToken
    requires { 0 < length bytes.now }
    ensures value { result ≡ front_of (slice_index bytes.now 0) (drop 1 bytes.now) }
    ensures within { result.more < length bytes.now }
{
    let byte = bytes[0];
    if letter(byte) {
        word_front(bytes)
    } else if digit(byte) {
        number_front(bytes)
    } else if byte == b'<' {
        less_of(&bytes[1..])
    } else {
        FrontToken {
            token: sign_of(byte),
            more: 0,
        }
    }
}

/// The token that begins at the front of bytes, where one does, and the place behind the first byte.
fn turn(place: Cursor, bytes: &[u8]) -> (Option<Placed>, Cursor)
    requires bytes { 0 < length bytes.now }
    requires free { place.skip ≡ 0 }
    requires line { place.line < 2 ^ 31 }
    requires column { place.column < 2 ^ 31 }
    ensures tokens { option_to_list result.0 ≡ tokens_at place (slice_index bytes.now 0) (drop 1 bytes.now) }
    ensures place { result.1 ≡ cursor_after place (slice_index bytes.now 0) (drop 1 bytes.now) }
    ensures line { result.1.line ≤ place.line + 1 }
    ensures column { result.1.column ≤ place.column + 1 }
    ensures within { result.1.skip < length bytes.now }
{
    let byte = bytes[0];
    if byte == b'\n' {
        (place.line_end(), place.below())
    } else if blank(byte) {
        (None, place.stepped(place.after, 0))
    } else if byte == b'#' {
        let skip = Run::Comment.len(&bytes[1..]);
        (None, place.stepped(place.after, skip))
    } else {
        let front = longest(bytes);
        (
            Some(place.with(front.token)),
            place.stepped(true, front.more),
        )
    }
}

/// The tokens of a file end with the file's end.
pub fn tokens_end_files()
    ensures { TokensEndFiles }
{}

/// The first token from a place on, and where the bytes go on behind its first one; behind all of them where there is
/// none.
fn first_token(from: Cursor, bytes: &[u8], passed: usize) -> (Option<Placed>, Cursor, usize)
    requires { IsPlaceIn (length bytes.now) passed from }
    ensures tokens { tokens_from from (drop passed bytes.now)
        ≡ option_to_list result.0 ++ tokens_from result.1 (drop result.2 bytes.now) }
    ensures place { IsPlaceIn (length bytes.now) result.2 result.1 }
    ensures all { IfNone result.0 (result.2 ≡ length bytes.now) }
{
    let mut place = from;
    let mut at = passed;
    while at < bytes.len() {
        let (token, next) = turn(place, &bytes[at..]);
        place = next.passed(&bytes[at + 1..]);
        at += 1 + next.skip;
        if token.is_some() {
            return (token, place, at);
        }
    }
    (None, place, at)
}

/// The tokens of a file, which are found one after another. It is seen as the list of those that are still to come.
#[derive(Drop)]
pub struct Lexer<'a> {
    bytes: &'a [u8],

    /// How many bytes were passed, and where the next one stands.
    passed: usize,
    place: Cursor,

    /// Whether the end of the file was told.
    ended: bool,
}

impl<'a> Model for Lexer<'a> {
    ghost use Rattle.std.specs.Prelude.{List, length, drop};
    ghost use Rattle.fn_tokens.specs.declared.token.Placed.{Placed};
    ghost use Rattle.fn_tokens.specs.Tokens.{tokens_left, IsPlaceIn};

    ghost Value = { List Placed };

    ghost view = { λ l. tokens_left l.ended l.place (drop l.passed l.bytes.now) };

    ghost invariant = { λ l. IsPlaceIn (length l.bytes.now) l.passed l.place };
}

impl<'a> Lexer<'a> {
    /// The tokens of these bytes: words, numbers and signs by the longest one, the end of each line that has a token,
    /// and the end of the file.
    pub fn new(bytes: &'a [u8]) -> Lexer<'a>
        requires { length bytes.now < 2 ^ 31 }
        ensures { result ≡ tokens_in bytes.now }
    {
        Lexer {
            bytes,
            passed: 0,
            place: Cursor::FIRST,
            ended: false,
        }
    }

    /// The next token, with its place; none behind the end of the file.
    pub fn next(&mut self) -> Option<Placed>
        ensures next { self.old ≡ option_to_list result ++ self.new }
        ensures none { IfNone result (self.old ≡ []) }
    {
        if self.ended {
            return None;
        }
        let (token, place, passed) = first_token(self.place, self.bytes, self.passed);
        self.place = place;
        self.passed = passed;
        if token.is_some() {
            return token;
        }
        if self.place.after {
            let end = self.place.with(Token::LineEnd);
            self.place.after = false;
            return Some(end);
        }
        self.ended = true;
        Some(self.place.with(Token::FileEnd))
    }

    /// The comparison of two positions or of two sites whose three tokens come next, where these are spelled as most
    /// are: with a space between two of them, and by a sign of one byte. They are passed then.
    #[inline(always)]
    pub fn comparison(&mut self) -> Option<FrontComparison>
        ensures some { IfSome result (λ c. BeginsWith c self.old self.new) }
        ensures none { IfNone result (self.new ≡ self.old) }
    {
        if self.ended {
            return None;
        }
        let (comparison, len) = comparison_front(&self.bytes[self.passed..])?;
        self.place.column += len as u32;
        self.place.after = true;
        self.passed += len;
        Some(comparison)
    }

    /// The offset behind a token, whose sign and number come next, where these are spelled as most are: with a space
    /// before each, and with one or two digits. They are passed then.
    #[inline(always)]
    pub fn offset(&mut self) -> Option<FrontOffset>
        ensures some { IfSome result (λ offset. BeginsWithOffset offset self.old self.new) }
        ensures none { IfNone result (self.new ≡ self.old) }
    {
        if self.ended || !self.place.after {
            return None;
        }
        let (offset, len) = offset_front(&self.bytes[self.passed..])?;
        self.place.column += len as u32;
        self.passed += len;
        Some(offset)
    }
}

/// The tokens of a file, each with its place, as a `Lexer` finds them.
pub fn lex(alloc: Global, bytes: &[u8]) -> Result<Vec<Placed>, NoMemory>
    requires { length bytes.now < 2 ^ 31 }
    ensures { IfOk result (λ v. v.items ≡ tokens_in bytes.now) }
{
    let mut tokens = Vec::new(alloc);
    let mut lexer = Lexer::new(bytes);
    while let Some(token) = lexer.next() {
        tokens.push(token)?;
    }
    Ok(tokens)
}
