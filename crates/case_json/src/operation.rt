//! Operations as JSON.
ghost use Rattle.std.specs.Prelude.{◌≡◌, map};
ghost use Rattle.serde_json.specs.View.{view};
ghost use Rattle.case_json.specs.Json.{is_word};
ghost use Rattle.case_json.specs.Operations.{operation_in, operation_from, operation_of, with_char, without_char};
ghost use Rattle.case_json.specs.Operations.{operation_word, with_parts, kind_in, position_in};

use crate::json::{Element, elements, number, one_char};
use crate::limits::{MAX_NUMBER, MAX_POSITION};
use ot_model::{KINDS, Kind, Op};
use serde_json::Value;
use std::alloc::{AllocError, Global};

impl Element for Op {
    ghost meant = { operation_in };

    fn read(_alloc: Global, json: &Value) -> Result<Option<Op>, AllocError> {
        Ok(operation(json))
    }
}

/// The operation that a value is.
pub(crate) fn operation(json: &Value) -> Option<Op>
    ensures { result ≡ operation_in (view json.now) }
{
    of_elements(elements(json)?)
}

/// An operation, of the elements of its array.
fn of_elements(elements: &[Value]) -> Option<Op>
    ensures { result ≡ operation_from (map view elements.now) }
{
    match elements {
        [word, values @ ..] => of_kind(kind(word)?, values),
        [] => None,
    }
}

/// An operation of a kind, of the values behind its word.
fn of_kind(kind: Kind, values: &[Value]) -> Option<Op>
    ensures { result ≡ operation_of kind (map view values.now) }
{
    if kind.has_char() {
        with_char(kind, values)
    } else {
        without_char(kind, values)
    }
}

fn with_char(kind: Kind, values: &[Value]) -> Option<Op>
    ensures { result ≡ with_char kind (map view values.now) }
{
    match values {
        [at, ch, site] => with_parts(
            kind,
            position(at)?,
            Some(one_char(ch)?),
            number(MAX_NUMBER, site)?,
        ),
        _ => None,
    }
}

fn without_char(kind: Kind, values: &[Value]) -> Option<Op>
    ensures { result ≡ without_char kind (map view values.now) }
{
    match values {
        [at, site] => with_parts(kind, position(at)?, None, number(MAX_NUMBER, site)?),
        _ => None,
    }
}

/// The operation of a kind at a position, with a character where the kind has one, by a site.
fn with_parts(kind: Kind, at: i64, ch: Option<char>, site: u32) -> Option<Op>
    ensures { result ≡ with_parts kind at ch site }
{
    match kind {
        Kind::Ins => Some(Op::Ins { at, ch: ch?, site }),
        Kind::Del => Some(Op::Del { at, site }),
        Kind::Upd => Some(Op::Upd { at, ch: ch?, site }),
    }
}

/// The kind that a word stands for.
fn kind(word: &Value) -> Option<Kind>
    ensures { result ≡ kind_in (view word.now) }
{
    KINDS.iter().copied().find(|kind| is_word_of(*kind, word))
}

fn is_word_of(kind: Kind, word: &Value) -> bool
    ensures { result ≡ is_word (operation_word kind) (view word.now) }
{
    word.as_str() == Some(operation_word(kind))
}

/// The word for the operations of a kind.
fn operation_word(kind: Kind) -> &'static str
    ensures { result.now ≡ operation_word kind }
{
    match kind {
        Kind::Ins => "ins",
        Kind::Del => "del",
        Kind::Upd => "upd",
    }
}

fn position(json: &Value) -> Option<i64>
    ensures { result ≡ position_in (view json.now) }
{
    Some(i64::from(number(MAX_POSITION, json)?))
}
