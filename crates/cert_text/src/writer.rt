//! Certificates, written part by part.
ghost use Rattle.std.specs.Prelude.{◌≡◌, ◌+◌, ◌*◌, ◌^◌, ◌<◌, ◌≤◌, ◌∷◌, ◌++◌, [], length, vec_len, vec_capacity};
ghost use Rattle.std.specs.Prelude.{IfOk, OnOk, OnErr, IsTrue, false};
ghost use Rattle.std.specs.Fmt.{decimal};
ghost use Rattle.std.specs.List.{AllByRecursion};
ghost use Rattle.ask_core.specs.declared.picks.TheConstants.{MAX_PICKS};
ghost use Rattle.ask_core.specs.declared.tree.Tok.TheVariants.{Cycle};
ghost use Rattle.ask_core.specs.Trees.{AnswerTree, tokens_of};
ghost use Rattle.cert_text.specs.Numbers.{more_numbers_text, numbers_text};
ghost use Rattle.cert_text.specs.Spelling.{AreSpellable, end_text, header_text, ob_text, token_text, tokens_text};
ghost use Rattle.ot_outside.specs.Whole.{AppendsFront};

use crate::line::{header_line, ob_line};
use crate::{CycleNumbers, NoMemory, Tree};
use ask_core::MAX_PICKS;
use fn_rules::{Level, ObName};
use itoa::Buffer;
use pick_digits::{tens_of, units_of};
use std::mem;

/// How many bytes a question and a cycle behind it have at most: a `?`, an `x`, at most 10 digits and a byte behind
/// each number, and a `;`.
const ASKED_ROOM: usize = 3 + 11 * MAX_PICKS;

/// Appends the first line of a certificate of a level that has these obligations. After `NoMemory` a
/// front of it was appended.
pub fn write_header(names: &[ObName], level: Level, out: &mut Vec<u8>) -> Result<(), NoMemory>
    ensures ok { OnOk result (out.new.items ≡ out.old.items ++ header_text names.now level) }
    ensures err { OnErr result (AppendsFront out.old.items (header_text names.now level) out.new.items) }
{
    let line = header_line(*out.allocator(), names, level);
    append(line.as_slice(), out)
}

/// An empty tree behind the bytes and an obligation's line.
pub fn begin_ob(name: ObName, bytes: Vec<u8>) -> Result<Tree, NoMemory>
    ensures { IfOk result (λ tree. tree ≡ record { front = bytes.items ++ ob_text name; tokens = [] }) }
{
    let mut front = bytes;
    let line = ob_line(*front.allocator(), name);
    front.extend_from_slice(line.as_slice())?;
    Ok(Tree::behind(front))
}

/// What stands before a tree, the tree and a newline.
pub fn end_ob(tree: Tree) -> Result<Vec<u8>, NoMemory>
    requires one_tree { (t : AnswerTree) × (tree.tokens ≡ tokens_of t) }
    requires spellable { AreSpellable tree.tokens }
    ensures { IfOk result (λ bytes. bytes.items ≡ tree.front ++ tokens_text tree.tokens ++ 10 ∷ []) }
{
    let mut bytes = tree.into_bytes();
    bytes.push(b'\n')?;
    Ok(bytes)
}

/// Appends the last line. After `NoMemory` a front of it was appended.
pub fn write_end(out: &mut Vec<u8>) -> Result<(), NoMemory>
    ensures ok { OnOk result (out.new.items ≡ out.old.items ++ end_text) }
    ensures err { OnErr result (AppendsFront out.old.items end_text out.new.items) }
{
    append(b"end\n", out)
}

fn append(bytes: &[u8], out: &mut Vec<u8>) -> Result<(), NoMemory>
    ensures ok { OnOk result (out.new.items ≡ out.old.items ++ bytes.now) }
    ensures err { OnErr result (AppendsFront out.old.items bytes.now out.new.items) }
{
    out.extend_from_slice(bytes)
}

#[inline(always)]
fn digit_of(value: u32) -> u8
    requires { value < 10 }
    ensures { result ≡ 48 + value }
{
    b'0' + value as u8
}

// The bytes with a number of more than two digits behind them, for which there is room. They come and go by value, so
// that a loop may keep their length and their place in registers.
#[inline(never)]
fn with_long(number: u32, bytes: Vec<u8>) -> Vec<u8>
    requires room { vec_len bytes + 10 ≤ vec_capacity bytes }
    ensures items { result.items ≡ bytes.items ++ decimal number }
    ensures len { vec_len result ≤ vec_len bytes + 10 }
    ensures capacity { vec_capacity bytes ≤ vec_capacity result }
{
    let mut bytes = bytes;
    let mut buffer = Buffer::new();
    let _ = bytes.extend_from_slice(buffer.format(number).as_bytes());
    bytes
}

// A number of more than two digits, for which there is room.
#[inline(always)]
fn put_long(number: u32, out: &mut Vec<u8>)
    requires room { vec_len out.old + 10 ≤ vec_capacity out.old }
    ensures items { out.new.items ≡ out.old.items ++ decimal number }
    ensures len { vec_len out.new ≤ vec_len out.old + 10 }
    ensures capacity { vec_capacity out.old ≤ vec_capacity out.new }
{
    let none = Vec::new(*out.allocator());
    let bytes = mem::replace(out, none);
    *out = with_long(number, bytes);
}

// A byte and a number, for which there is room. Most numbers have one digit or two.
#[inline(always)]
fn put_led(lead: u8, number: u32, out: &mut Vec<u8>)
    requires room { vec_len out.old + 11 ≤ vec_capacity out.old }
    ensures items { out.new.items ≡ out.old.items ++ lead ∷ decimal number }
    ensures len { vec_len out.new ≤ vec_len out.old + 11 }
    ensures capacity { vec_capacity out.old ≤ vec_capacity out.new }
{
    if number < 10 {
        out.push_reserved(lead);
        out.push_reserved(digit_of(number));
        return;
    }
    if number < 100 {
        out.push_reserved(lead);
        out.push_reserved(tens_of(number));
        out.push_reserved(units_of(number));
        return;
    }
    out.push_reserved(lead);
    put_long(number, out);
}

/// Numbers of a list.
#[derive(Drop)]
struct Listed<'a> {
    numbers: &'a [u32],
}

impl CycleNumbers for Listed<'_> {
    ghost left = { λ listed. listed.numbers.now };

    #[inline(always)]
    fn next(&mut self) -> Option<u32> {
        let (first, rest) = self.numbers.split_first()?;
        self.numbers = rest;
        Some(*first)
    }
}

// Further numbers, for which there is room, and for one more byte.
#[inline(always)]
fn put_more_numbers<C: CycleNumbers>(numbers: C, out: &mut Vec<u8>)
    requires room { vec_len out.old + 11 * length (C.left numbers) + 1 ≤ vec_capacity out.old }
    ensures items { out.new.items ≡ out.old.items ++ more_numbers_text (C.left numbers) }
    ensures words { AllByRecursion (λ n. n < 2 ^ 32) (C.left numbers) }
    ensures room { vec_len out.new + 1 ≤ vec_capacity out.new }
{
    let mut left = numbers;
    while let Some(number) = left.next() {
        put_led(b',', number, out);
    }
}

// The numbers of a cycle behind their `x`, for which there is room, and for one more byte.
#[inline(always)]
fn put_numbers(numbers: &[u32], out: &mut Vec<u8>)
    requires room { vec_len out.old + 11 * length numbers.now + 2 ≤ vec_capacity out.old }
    ensures items { out.new.items ≡ out.old.items ++ 120 ∷ numbers_text numbers.now }
    ensures room { vec_len out.new + 1 ≤ vec_capacity out.new }
{
    let Some((first, rest)) = numbers.split_first() else {
        out.push_reserved(b'x');
        return;
    };
    put_led(b'x', *first, out);
    put_more_numbers(Listed { numbers: rest }, out);
}

// A question, and a cycle of a number and others behind it, for which there is room.
#[inline(always)]
fn put_question<C: CycleNumbers>(first: u32, others: C, out: &mut Vec<u8>)
    requires few { length (C.left others) < MAX_PICKS }
    requires room { vec_len out.old + ASKED_ROOM ≤ vec_capacity out.old }
    ensures items { out.new.items ≡ out.old.items ++ 63 ∷ token_text (Cycle (first ∷ C.left others)) }
    ensures words { AllByRecursion (λ n. n < 2 ^ 32) (first ∷ C.left others) }
{
    out.push_reserved(b'?');
    put_led(b'x', first, out);
    put_more_numbers(others, out);
    out.push_reserved(b';');
}

/// Appends a question, and a cycle of a number and others behind it. Nothing is appended where memory is wanting.
#[inline(always)]
pub(crate) fn write_asked<C: CycleNumbers>(
    first: u32,
    others: C,
    out: &mut Vec<u8>,
) -> Result<(), NoMemory>
    requires { length (C.left others) < MAX_PICKS }
    ensures ok { OnOk result (out.new.items ≡ out.old.items ++ 63 ∷ token_text (Cycle (first ∷ C.left others))) }
    ensures words { OnOk result (AllByRecursion (λ n. n < 2 ^ 32) (first ∷ C.left others)) }
    ensures err { OnErr result (out.new.items ≡ out.old.items) }
{
    out.reserve(ASKED_ROOM)?;
    put_question(first, others, out);
    Ok(())
}

/// The same, where there is room for as many numbers as a cycle may have: then the answer is true. Else it is false,
/// and nothing is appended. The allocator is not asked for memory.
#[inline(always)]
pub(crate) fn put_asked<C: CycleNumbers>(first: u32, others: C, out: &mut Vec<u8>) -> bool
    requires { length (C.left others) < MAX_PICKS }
    ensures put { IsTrue result
        → out.new.items ≡ out.old.items ++ 63 ∷ token_text (Cycle (first ∷ C.left others)) }
    ensures words { IsTrue result → AllByRecursion (λ n. n < 2 ^ 32) (first ∷ C.left others) }
    ensures kept { result ≡ false → out.new.items ≡ out.old.items }
{
    if out.capacity() - out.len() < ASKED_ROOM {
        return false;
    }
    put_question(first, others, out);
    true
}

/// Appends a cycle with these numbers. Nothing is appended where memory is wanting.
// Room for all of it is taken at once: an `x`, at most 10 digits and a byte behind each number, and a `;`.
#[inline(always)]
pub(crate) fn write_cycle(numbers: &[u32], out: &mut Vec<u8>) -> Result<(), NoMemory>
    requires { length numbers.now ≤ MAX_PICKS }
    ensures ok { OnOk result (out.new.items ≡ out.old.items ++ token_text (Cycle numbers.now)) }
    ensures err { OnErr result (out.new.items ≡ out.old.items) }
{
    out.reserve(2 + 11 * numbers.len())?;
    let none = Vec::new(*out.allocator());
    let mut bytes = mem::replace(out, none);
    put_numbers(numbers, &mut bytes);
    bytes.push_reserved(b';');
    *out = bytes;
    Ok(())
}
