//! The cause for which a token that cannot go on is refused.

ghost use Rattle.std.specs.Prelude.{◌≡◌};
ghost use Rattle.fn_tokens.specs.Faults.{region_of, number_fault, operand_fault, side_fault, is_behind_kinds};
ghost use Rattle.fn_tokens.specs.Faults.{thing_fault, end_fault};
ghost use Rattle.fn_tokens.specs.Faults.{case_fault, declared_fault, kept_fault, kind_fault, nested_fault};
ghost use Rattle.fn_tokens.specs.Faults.{nesting_fault, word_fault};
ghost use Rattle.fn_tokens.specs.Faults.{cause_in, placed_fault, fault_of};

use crate::control::{Control, Region, Want};
use crate::fault::{FaultKind, TextFault};
use crate::{Placed, Token, Word};
use fn_rules::{MAX_NESTING, Sort};
use ot_model::Kind;

fn region(want: Want) -> Region
    ensures { result ≡ region_of want }
{
    match want {
        Want::Version => Region::AtVersion,
        Want::Line => Region::AtLine,
        Want::BlockFirst => Region::AtBlockFirst,
        Want::BlockSecond(_) => Region::AtBlockSecond,
        Want::BlockEnd => Region::AtBlockEnd,
        Want::Operand => Region::AtOperand,
        Want::Comparison(..) => Region::InAtom,
        Want::Right(..) => Region::AtRight,
        Want::Offset(..) => Region::BehindOperand,
        Want::Number(..) => Region::AtNumber,
        Want::Operator => Region::BehindOperand,
        Want::Result | Want::ResultPosition => Region::InResult,
        Want::ResultOffset(_) => Region::BehindResult,
        Want::ResultNumber(..) => Region::AtResultNumber,
        Want::ResultEnd(_) => Region::BehindResult,
        _ => Region::Elsewhere,
    }
}

fn number(region: Region) -> FaultKind
    ensures { result ≡ number_fault region }
{
    match region {
        Region::AtVersion => FaultKind::Version,
        Region::AtNumber | Region::AtResultNumber => FaultKind::Offset,
        _ => FaultKind::Expected,
    }
}

fn operand(region: Region) -> FaultKind
    ensures { result ≡ operand_fault region }
{
    match region {
        Region::AtOperand => FaultKind::Atoms,
        _ => FaultKind::Expected,
    }
}

/// A thing as a second side.
fn side(region: Region) -> FaultKind
    ensures { result ≡ side_fault region }
{
    match region {
        Region::AtRight => FaultKind::Sort,
        _ => operand(region),
    }
}

/// Whether the place is behind the kinds of a block or behind the word `case`.
fn behind_kinds(region: Region) -> bool
    ensures { result ≡ is_behind_kinds region }
{
    match region {
        Region::Elsewhere
        | Region::AtVersion
        | Region::AtLine
        | Region::AtBlockFirst
        | Region::AtBlockSecond => false,
        _ => true,
    }
}

fn end(region: Region) -> FaultKind
    ensures { result ≡ end_fault region }
{
    match region {
        Region::AtLine => FaultKind::Missing,
        _ => FaultKind::Expected,
    }
}

fn nested(depth: u64) -> FaultKind
    ensures { result ≡ nested_fault depth }
{
    if depth >= MAX_NESTING {
        FaultKind::Nesting
    } else {
        FaultKind::Expected
    }
}

impl Control {
    /// A thing, first where it may not be compared.
    fn thing_cause(&self, sort: Sort, region: Region) -> FaultKind
        ensures { result ≡ thing_fault self.now sort region }
    {
        if behind_kinds(region) && !self.may_compare(sort) {
            FaultKind::Sort
        } else {
            side(region)
        }
    }

    fn case_cause(&self, region: Region) -> FaultKind
        ensures { result ≡ case_fault self.now region }
    {
        match region {
            Region::AtLine => {
                if self.begun {
                    FaultKind::Cases
                } else {
                    FaultKind::Expected
                }
            }
            _ => FaultKind::Expected,
        }
    }

    fn declared(&self, kind: Kind, otherwise: FaultKind) -> FaultKind
        ensures { result ≡ declared_fault self.now kind otherwise }
    {
        if self.head.declares(kind) {
            otherwise
        } else {
            FaultKind::Kind
        }
    }

    fn kept(&self, kind: Kind) -> FaultKind
        ensures { result ≡ kept_fault self.now kind }
    {
        if self.first.same(kind) {
            FaultKind::Expected
        } else {
            FaultKind::Outcome
        }
    }

    fn kind_cause(&self, kind: Kind, region: Region) -> FaultKind
        ensures { result ≡ kind_fault self.now kind region }
    {
        match region {
            Region::AtBlockFirst => self.declared(kind, FaultKind::Expected),
            Region::AtBlockSecond => self.declared(kind, FaultKind::Double),
            Region::AtBlockEnd => self.declared(kind, FaultKind::Expected),
            Region::InResult => self.kept(kind),
            Region::AtResultNumber => self.kept(kind),
            _ => FaultKind::Expected,
        }
    }

    /// `(` or `not`: the `not` before an operand are around it until it is whole.
    fn nesting_cause(&self, region: Region) -> FaultKind
        ensures { result ≡ nesting_fault self.now region }
    {
        match region {
            Region::AtOperand => nested(self.depth()),
            Region::InAtom => nested(self.depth()),
            Region::AtRight => nested(self.depth()),
            Region::AtNumber => nested(self.depth()),
            Region::BehindOperand => nested(self.outside),
            _ => FaultKind::Expected,
        }
    }

    /// A kind, first where the language has no word for it.
    fn kind_word_cause(&self, kind: Kind, region: Region) -> FaultKind
        ensures { result ≡ word_fault self.now region (Word.Kind kind) }
    {
        if self.language.has_word(kind) {
            self.kind_cause(kind, region)
        } else {
            FaultKind::Word
        }
    }

    fn word_cause(&self, region: Region, word: Word) -> FaultKind
        ensures { result ≡ word_fault self.now region word }
    {
        match word {
            Word::Not => self.nesting_cause(region),
            Word::True => operand(region),
            Word::Thing(sort, _) => self.thing_cause(sort, region),
            Word::Kind(kind) => self.kind_word_cause(kind, region),
            Word::End => end(region),
            Word::Case => self.case_cause(region),
            _ => FaultKind::Expected,
        }
    }

    fn cause(&self, region: Region, token: Token) -> FaultKind
        ensures { result ≡ cause_in self.now region token }
    {
        match token {
            Token::Byte => FaultKind::Byte,
            Token::Unknown => FaultKind::Word,
            Token::Known(word) => self.word_cause(region, word),
            Token::Number(_) => number(region),
            Token::Open => self.nesting_cause(region),
            Token::Comparison(_)
            | Token::Sign(_)
            | Token::Close
            | Token::Colon
            | Token::LineEnd
            | Token::FileEnd => FaultKind::Expected,
        }
    }

    /// A fault stands at its token, but that of a block which is there already at its word `block`.
    fn placed(&self, at: &Placed, kind: FaultKind) -> TextFault
        ensures { result ≡ placed_fault self.now at.now kind }
    {
        match kind {
            FaultKind::Double => TextFault {
                line: self.line,
                column: self.column,
                kind,
            },
            _ => TextFault {
                line: at.line,
                column: at.column,
                kind,
            },
        }
    }

    /// The fault of a token that cannot go on.
    pub fn fault(&self, at: &Placed) -> TextFault
        ensures { result ≡ fault_of self.now at.now }
    {
        self.placed(at, self.cause(region(self.want), at.token))
    }
}
