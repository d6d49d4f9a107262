//! Where values of a case do not fit.
ghost use Rattle.std.specs.Prelude.{◌≡◌, ◌∷◌, [], map, is_some, Some, IfSome, IfNone, IsUtf8};
ghost use Rattle.std.specs.Str.{chars};
ghost use Rattle.std.specs.Option.{option_map, option_or};
ghost use Rattle.serde_json.specs.View.{view};
ghost use Rattle.case_json.specs.Json.{char_in, elements_of, is_word, number_up_to};
ghost use Rattle.case_json.specs.Operations.{kind_in, operation_word, position_in};
ghost use Rattle.case_json.specs.Misfits as misfits;

use crate::{MAX_NUMBER, MAX_POSITION};
use json_places::Places;
use ot_model::{KINDS, Kind};
use serde_json::Value;

/// What a value is to be.
pub(crate) trait Shape {
    ghost use Rattle.std.specs.Prelude.{Option};
    ghost use Rattle.serde_json.specs.Data.{Data};
    ghost use Rattle.json_places.specs.declared.places.Places.{Places};

    /// Where a value does not fit.
    ghost wrong: { Data → Option Places };

    /// Where a value does not fit; none where it fits.
    fn misfit(json: &Value) -> Option<Places>
        ensures { result ≡ wrong (view json.now) };
}

pub(crate) fn here() -> Places
    ensures { result ≡ misfits.here }
{
    Places {
        first: None,
        second: None,
        third: None,
    }
}

pub(crate) fn inside(place: usize, places: Places) -> Places
    ensures { result ≡ misfits.inside place places }
{
    Places {
        first: Some(place),
        second: places.first,
        third: places.second,
    }
}

fn unless(fits: bool, places: Places) -> Option<Places>
    ensures { result ≡ misfits.unless fits places }
{
    if fits { None } else { Some(places) }
}

fn within(place: usize, found: Option<Places>) -> Option<Places>
    ensures { result ≡ misfits.within place found }
{
    match found {
        None => None,
        Some(places) => Some(inside(place, places)),
    }
}

fn first_of(one: Option<Places>, other: Option<Places>) -> Option<Places>
    ensures { result ≡ option_or one other }
{
    match one {
        None => other,
        Some(places) => Some(places),
    }
}

/// The elements of a value that is an array.
fn elements(json: &Value) -> Option<&[Value]>
    ensures { option_map (λ items. map view items.now) result ≡ elements_of (view json.now) }
{
    match json.as_array() {
        Some(items) => Some(items.as_slice()),
        None => None,
    }
}

// Of elements, the first that does not fit.
fn elements_misfit<S: Shape>(elements: &[Value]) -> Option<Places>
    ensures { result ≡ misfits.elements_misfit S.Shape.wrong 0 (map view elements.now) }
{
    for (place, element) in elements.iter().enumerate() {
        if let Some(places) = S::misfit(element) {
            return Some(inside(place, places));
        }
    }
    None
}

/// Where a value does not fit that is to be an array of such elements.
pub(crate) fn array_misfit<S: Shape>(json: &Value) -> Option<Places>
    ensures { result ≡ misfits.array_misfit S.Shape.wrong (view json.now) }
{
    match elements(json) {
        None => Some(here()),
        Some(items) => elements_misfit::<S>(items),
    }
}

// Whether a value is a whole number that is not too great.
fn is_number(most: u32, json: &Value) -> bool
    ensures { result ≡ is_some (number_up_to most (view json.now)) }
{
    match json.as_u64() {
        Some(number) => number <= u64::from(most),
        None => false,
    }
}

fn is_position(json: &Value) -> bool
    ensures { result ≡ is_some (position_in (view json.now)) }
{
    is_number(MAX_POSITION, json)
}

// The first character of a text, and the text behind it.
fn split_char(text: &str) -> Option<(char, &str)>
    ensures some { IfSome result (λ first. chars text.now ≡ first.0 ∷ chars first.1.now) }
    ensures none { IfNone result (chars text.now ≡ []) }
    ensures utf8 { IfSome result (λ first. IsUtf8 first.1.now) }
{
    let mut rest = text.chars();
    match rest.next() {
        Some(ch) => Some((ch, rest.as_str())),
        None => None,
    }
}

// The character of a string of one.
fn one_char(json: &Value) -> Option<char>
    ensures { result ≡ char_in (view json.now) }
{
    let (ch, behind) = split_char(json.as_str()?)?;
    match split_char(behind) {
        Some(_) => None,
        None => Some(ch),
    }
}

fn is_char(json: &Value) -> bool
    ensures { result ≡ is_some (char_in (view json.now)) }
{
    one_char(json).is_some()
}

/// A site, or a number that names an operation.
pub(crate) struct Number;

impl Shape for Number {
    ghost wrong = { misfits.number_misfit };

    fn misfit(json: &Value) -> Option<Places> {
        unless(is_number(MAX_NUMBER, json), here())
    }
}

/// An order.
pub(crate) struct Order;

impl Shape for Order {
    ghost wrong = { misfits.order_misfit };

    fn misfit(json: &Value) -> Option<Places> {
        array_misfit::<Number>(json)
    }
}

fn with_char_misfit(values: &[Value]) -> Option<Places>
    ensures { result ≡ misfits.with_char_misfit (map view values.now) }
{
    match values {
        [at, ch, site] => first_of(
            unless(is_position(at), inside(1, here())),
            first_of(
                unless(is_char(ch), inside(2, here())),
                unless(is_number(MAX_NUMBER, site), inside(3, here())),
            ),
        ),
        _ => Some(here()),
    }
}

fn without_char_misfit(values: &[Value]) -> Option<Places>
    ensures { result ≡ misfits.without_char_misfit (map view values.now) }
{
    match values {
        [at, site] => first_of(
            unless(is_position(at), inside(1, here())),
            unless(is_number(MAX_NUMBER, site), inside(2, here())),
        ),
        _ => Some(here()),
    }
}

/// The word for the operations of a kind.
fn operation_word(kind: Kind) -> &'static str
    ensures { result.now ≡ operation_word kind }
{
    match kind {
        Kind::Ins => "ins",
        Kind::Del => "del",
        Kind::Upd => "upd",
    }
}

fn is_word_of(kind: Kind, word: &Value) -> bool
    ensures { result ≡ is_word (operation_word kind) (view word.now) }
{
    word.as_str() == Some(operation_word(kind))
}

/// The kind that a word stands for.
fn kind(word: &Value) -> Option<Kind>
    ensures { result ≡ kind_in (view word.now) }
{
    KINDS.iter().copied().find(|kind| is_word_of(*kind, word))
}

// The values behind the word of an operation, if its word is one of a kind.
fn values_misfit(kind: Option<Kind>, values: &[Value]) -> Option<Places>
    ensures { result ≡ misfits.values_misfit kind (map view values.now) }
{
    match kind {
        None => Some(inside(0, here())),
        Some(kind) => {
            if kind.has_char() {
                with_char_misfit(values)
            } else {
                without_char_misfit(values)
            }
        }
    }
}

// An operation, of the elements of its array.
fn operation_misfit(elements: &[Value]) -> Option<Places>
    ensures { result ≡ misfits.operation_from_misfit (Some (map view elements.now)) }
{
    match elements {
        [word, values @ ..] => values_misfit(kind(word), values),
        [] => Some(here()),
    }
}

/// An operation.
pub(crate) struct Operation;

impl Shape for Operation {
    ghost wrong = { misfits.operation_misfit };

    fn misfit(json: &Value) -> Option<Places> {
        match elements(json) {
            Some(elements) => operation_misfit(elements),
            None => Some(here()),
        }
    }
}

fn is_word(word: &str, json: &Value) -> bool
    ensures { result ≡ is_word word.now (view json.now) }
{
    json.as_str() == Some(word)
}

// An event of two elements behind its word.
fn pair_misfit<S: Shape>(named: bool, site: &Value, value: &Value) -> Option<Places>
    ensures { result ≡ misfits.pair_misfit named S.Shape.wrong (view site.now) (view value.now) }
{
    first_of(
        unless(named, inside(0, here())),
        first_of(within(1, Number::misfit(site)), within(2, S::misfit(value))),
    )
}

// An event of a session, of the elements of its array.
fn session_event_misfit(elements: &[Value]) -> Option<Places>
    ensures { result ≡ misfits.session_event_from_misfit (Some (map view elements.now)) }
{
    match elements {
        [word, site, what] => {
            if is_word("make", word) {
                pair_misfit::<Operation>(true, site, what)
            } else {
                pair_misfit::<Number>(is_word("take", word), site, what)
            }
        }
        _ => Some(here()),
    }
}

/// An event of a session.
pub(crate) struct SessionEvent;

impl Shape for SessionEvent {
    ghost wrong = { misfits.session_event_misfit };

    fn misfit(json: &Value) -> Option<Places> {
        match elements(json) {
            Some(elements) => session_event_misfit(elements),
            None => Some(here()),
        }
    }
}

// An event of a hub, of the elements of its array.
fn hub_event_misfit(elements: &[Value]) -> Option<Places>
    ensures { result ≡ misfits.hub_event_from_misfit (Some (map view elements.now)) }
{
    match elements {
        [word, client] => first_of(
            unless(
                is_word("up", word) || is_word("down", word),
                inside(0, here()),
            ),
            within(1, Number::misfit(client)),
        ),
        [word, client, op] => pair_misfit::<Operation>(is_word("edit", word), client, op),
        _ => Some(here()),
    }
}

/// An event of a hub.
pub(crate) struct HubEvent;

impl Shape for HubEvent {
    ghost wrong = { misfits.hub_event_misfit };

    fn misfit(json: &Value) -> Option<Places> {
        match elements(json) {
            Some(elements) => hub_event_misfit(elements),
            None => Some(here()),
        }
    }
}
