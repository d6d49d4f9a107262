//! A walk over the bytes of a JSON text, which finds where the value at a path begins.
ghost use Rattle.std.specs.Prelude.{◌≡◌, ◌<◌, [], length, IfSome};
ghost use Rattle.std.specs.List.{slice_get};
ghost use Rattle.std.specs.Option.{option_map, option_map_or};
ghost use Rattle.json_places.specs.Values as values;

use crate::places::Places;
use crate::spot::{Spot, closes};

fn is_blank(byte: u8) -> bool
    ensures { result ≡ values.is_blank byte }
{
    byte == b' ' || byte == b'\t' || byte == b'\n' || byte == b'\r'
}

fn behind_blanks(text: &[u8]) -> &[u8]
    ensures { result.now ≡ values.behind_blanks text.now }
{
    for (index, byte) in text.iter().enumerate() {
        if !is_blank(*byte) {
            return &text[index..];
        }
    }
    &[]
}

fn behind<'a>(front: &[u8], text: &'a [u8]) -> Option<&'a [u8]>
    ensures { option_map (λ left. left.now) result ≡ values.behind front.now text.now }
{
    text.strip_prefix(front)
}

fn value_in(text: &[u8]) -> Option<&[u8]>
    ensures { option_map (λ value. value.now) result ≡ values.value_in text.now }
{
    let value = behind_blanks(text);
    if closes(*value.first()?) {
        None
    } else {
        Some(value)
    }
}

// The entry behind this one.
fn next_entry(entry: &[u8]) -> Option<&[u8]>
    ensures next { values.next_entries entry.now
        ≡ option_map_or values.entries (option_map (λ next. next.now) result) [] }
    ensures shorter { IfSome result (λ next. length next.now < length entry.now) }
{
    let mut spot = Spot::Plain(0);
    for (index, byte) in entry.iter().enumerate() {
        if spot.ends(*byte) {
            return None;
        }
        if spot.parts(*byte) {
            return Some(&entry[index + 1..]);
        }
        spot = spot.behind(*byte);
    }
    None
}

// The entry with this number, of what is behind the bracket that opens.
fn entry(inside: &[u8], number: usize) -> Option<&[u8]>
    ensures { option_map (λ entry. entry.now) result ≡ slice_get (values.entries inside.now) number }
{
    let mut entry = inside;
    for _step in 0..number {
        entry = next_entry(entry)?;
    }
    Some(entry)
}

fn element(value: &[u8], number: usize) -> Option<&[u8]>
    ensures { option_map (λ element. element.now) result ≡ values.element number value.now }
{
    value_in(entry(behind(b"[", value)?, number)?)
}

fn behind_key<'a>(key: &[u8], text: &'a [u8]) -> Option<&'a [u8]>
    ensures { option_map (λ left. left.now) result ≡ values.behind_key key.now text.now }
{
    behind(b"\"", behind(key, behind(b"\"", text)?)?)
}

fn value_under<'a>(key: &[u8], member: &'a [u8]) -> Option<&'a [u8]>
    ensures { option_map (λ value. value.now) result ≡ values.value_under key.now member.now }
{
    let rest = behind_key(key, behind_blanks(member))?;
    value_in(behind(b":", behind_blanks(rest))?)
}

// The value under a key, of what is behind the bracket that opens an object.
fn last_under<'a>(key: &[u8], inside: &'a [u8]) -> Option<&'a [u8]>
    ensures { option_map (λ value. value.now) result ≡ values.last_under key.now (values.entries inside.now) }
{
    let mut found = value_under(key, inside);
    let mut member = inside;
    while let Some(next) = next_entry(member) {
        found = value_under(key, next).or(found);
        member = next;
    }
    found
}

fn member<'a>(key: &[u8], value: &'a [u8]) -> Option<&'a [u8]>
    ensures { option_map (λ value. value.now) result ≡ values.member key.now value.now }
{
    last_under(key, behind(b"{", value)?)
}

fn some_element(value: &[u8], number: Option<usize>) -> Option<&[u8]>
    ensures { option_map (λ element. element.now) result ≡ values.some_element number value.now }
{
    match number {
        None => Some(value),
        Some(number) => element(value, number),
    }
}

fn value_within(value: &[u8], places: Places) -> Option<&[u8]>
    ensures { option_map (λ value. value.now) result ≡ values.value_within places value.now }
{
    let first = some_element(value, places.first)?;
    let second = some_element(first, places.second)?;
    some_element(second, places.third)
}

/// At how many bytes from the beginning the value begins that stands at places under a key of the text's object. Of
/// several members with that key the last one counts; one whose key is spelled with escapes is not found.
pub fn value_offset(text: &[u8], key: &str, places: Places) -> Option<usize>
    ensures { result ≡ values.value_at text.now key.now places }
{
    let value = value_within(member(key.as_bytes(), behind_blanks(text))?, places)?;
    Some(text.len().saturating_sub(value.len()))
}
