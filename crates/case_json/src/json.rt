//! Readers of the JSON values that cases are made of.
ghost use Rattle.std.specs.Prelude.{◌≡◌, ◌≤◌, ◌<◌, map, codes, IsUtf8, IfOk, IfSome};
ghost use Rattle.std.specs.Option.{option_map, option_and_then};
ghost use Rattle.std.specs.Prelude.{ok_or};
ghost use Rattle.serde_json.specs.View.{view};
ghost use Rattle.serde_json.specs.Find.{get, as_str};
ghost use Rattle.case_json.specs.Faults.{CaseReads, seen_as};
ghost use Rattle.case_json.specs.Json.{json_in, elements_of, each, number_up_to, char_in, is_word};
ghost use Rattle.case_json.specs.Cases.{elements_from, elements_at};

use crate::doc_text::split_char;
use crate::fault::{CaseFault, Name};
use crate::limits::MAX_NUMBER;
use crate::stop::CaseError;
use plain_list::List;
use serde_json::Value;
use std::alloc::{AllocError, Global};

/// What can be an element of an array.
pub(crate) trait Element: Drop + Sized {
    ghost use Rattle.std.specs.Prelude.{Option};
    ghost use Rattle.serde_json.specs.Data.{Data};

    /// What a value stands for, if it stands for such an element.
    ghost meant: { Data → Option Self };

    /// Reads a value; None where it stands for no such element.
    fn read(alloc: Global, json: &Value) -> Result<Option<Self>, AllocError>
        ensures { IfOk result (λ found. found ≡ meant (view json.now)) };
}

impl Element for u32 {
    ghost use Rattle.case_json.specs.Operations.{number_in};

    ghost meant = { number_in };

    fn read(_alloc: Global, json: &Value) -> Result<Option<u32>, AllocError> {
        Ok(number(MAX_NUMBER, json))
    }
}

impl<T: Element> Element for List<T> {
    ghost meant = { λ json. option_and_then (each T.Element.meant) (elements_of json) };

    fn read(alloc: Global, json: &Value) -> Result<Option<List<T>>, AllocError> {
        match elements(json) {
            Some(items) => list_of_items(alloc, items),
            None => Ok(None),
        }
    }
}

/// The elements of a value that is an array.
pub(crate) fn elements(json: &Value) -> Option<&[Value]>
    ensures { option_map (λ items. map view items.now) result ≡ elements_of (view json.now) }
{
    match json.as_array() {
        Some(items) => Some(items.as_slice()),
        None => None,
    }
}

/// A whole number that is not too great.
pub(crate) fn number(most: u32, json: &Value) -> Option<u32>
    ensures { result ≡ number_up_to most (view json.now) }
{
    let number = json.as_u64()?;
    if number <= u64::from(most) {
        Some(number as u32)
    } else {
        None
    }
}

/// The character of a string of one.
pub(crate) fn one_char(json: &Value) -> Option<char>
    ensures { result ≡ char_in (view json.now) }
{
    let (ch, behind) = split_char(json.as_str()?)?;
    match split_char(behind) {
        Some(_) => None,
        None => Some(ch),
    }
}

/// What the items stand for; None where one of them stands for no such element.
fn list_of_items<T: Element>(alloc: Global, items: &[Value]) -> Result<Option<List<T>>, AllocError>
    ensures { IfOk result (λ list. list ≡ each T.Element.meant (map view items.now)) }
{
    let mut list = List::new(alloc);
    for item in items {
        let Some(element) = T::read(alloc, item)? else {
            return Ok(None);
        };
        list.push(element)?;
    }
    Ok(Some(list))
}

/// The elements of the array under a key, at most so many. A missing or malformed part is
/// `Field(part)`, and too many elements are `Limit(part)`, also where one of them is malformed.
pub(crate) fn list_at<T: Element>(
    alloc: Global,
    json: &Value,
    key: &str,
    part: Name,
    most: usize,
) -> Result<List<T>, CaseError>
    ensures { CaseReads result (elements_at key.now part most T.Element.meant (view json.now)) }
{
    let Some(items) = json.get(key).and_then(elements) else {
        return Err(CaseError::Fault(CaseFault::Field(part)));
    };
    if items.len() > most {
        return Err(CaseError::Fault(CaseFault::Limit(part)));
    }
    match list_of_items(alloc, items)? {
        Some(list) => Ok(list),
        None => Err(CaseError::Fault(CaseFault::Field(part))),
    }
}
