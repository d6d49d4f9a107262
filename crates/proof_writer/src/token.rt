//! Tokens of a tree that is being written.
ghost use Rattle.std.specs.Prelude.{◌<◌, ◌≤◌, length};
ghost use Rattle.proof_writer.specs.Texts.{ExtendsText};

use ask_core::{MAX_PICKS, NoMemory};
use diff_graph::Lit;
use itoa::Buffer;
use pick_digits::{tens_of, units_of};
use proof_text::write_token;
use proof_trees::{Literals, MAX_LITERALS, ProofTok};

/// How many bytes a cycle has at most: an `x`, at most 10 digits and a byte behind each number.
const CYCLE_BYTES: usize = 1 + 11 * MAX_PICKS;

/// The text of a cycle so far.
#[derive(Drop)]
struct CycleText {
    bytes: [u8; CYCLE_BYTES],
    count: usize,
}

/// Appends a token.
#[inline(always)]
pub fn put(tok: ProofTok, out: &mut Vec<u8>) -> Result<(), NoMemory>
    ensures { ExtendsText out.old.items out.new.items }
{
    write_token(&tok, out)
}

/// Appends a question.
#[inline(always)]
pub fn put_ask(out: &mut Vec<u8>) -> Result<(), NoMemory>
    ensures { ExtendsText out.old.items out.new.items }
{
    out.extend_from_slice(b"?")
}

// The place of the least number.
#[inline(always)]
fn place_of_least(numbers: &[u32]) -> usize
    ensures { result ≤ length numbers.now }
{
    let mut found = 0;
    let mut least = u32::MAX;
    'places: for (place, number) in numbers.iter().enumerate() {
        if *number < least {
            least = *number;
            found = place;
        }
    }
    found
}

impl CycleText {
    // One byte, where there is room for it.
    #[inline(always)]
    fn put(&mut self, byte: u8) {
        if self.count < self.bytes.len() {
            self.bytes[self.count] = byte;
            self.count += 1;
        }
    }

    // A number of more than four digits.
    #[inline(never)]
    fn put_long(&mut self, number: u32) {
        let mut buffer = Buffer::new();
        for digit in buffer.format(number).as_bytes() {
            self.put(*digit);
        }
    }

    // A number below 100.
    #[inline(always)]
    fn put_short(&mut self, number: u32)
        requires { number < 100 }
    {
        if number >= 10 {
            self.put(tens_of(number));
        }
        self.put(units_of(number));
    }

    // A number. Most have one digit or two, and hardly any more than four.
    #[inline(always)]
    fn put_number(&mut self, number: u32) {
        if number < 100 {
            self.put_short(number);
            return;
        }
        if number < 10_000 {
            let last = number % 100;
            self.put_short(number / 100);
            self.put(tens_of(last));
            self.put(units_of(last));
            return;
        }
        self.put_long(number);
    }

    // Numbers, each with a byte behind it.
    #[inline(always)]
    fn put_numbers(&mut self, numbers: &[u32]) {
        for number in numbers {
            self.put_number(*number);
            self.put(b',');
        }
    }

    // The text of the cycle of these numbers, its least number first.
    #[inline(always)]
    fn new(numbers: &[u32]) -> CycleText {
        let mut text = CycleText {
            bytes: [b'x'; CYCLE_BYTES],
            count: 1,
        };
        let least = place_of_least(numbers);
        text.put_numbers(&numbers[least..]);
        text.put_numbers(&numbers[..least]);
        text.end();
        text
    }

    // The byte behind the last number ends the cycle.
    #[inline(always)]
    fn end(&mut self) {
        if let Some(last) = self.bytes.get_mut(self.count.saturating_sub(1)) {
            *last = b';';
        }
    }

    #[inline(always)]
    fn as_slice(&self) -> &[u8] {
        match self.bytes.get(..self.count) {
            None => &[],
            Some(bytes) => bytes,
        }
    }
}

/// Appends the cycle of these numbers, its least number first.
pub fn put_cycle(numbers: &[u32], out: &mut Vec<u8>) -> Result<(), NoMemory>
    ensures { ExtendsText out.old.items out.new.items }
{
    let text = CycleText::new(numbers);
    out.extend_from_slice(text.as_slice())
}

/// The literals of a lemma, if they are few enough.
pub fn literals_of(literals: &[Lit]) -> Option<Literals> {
    let mut few = Literals::new();
    for literal in literals {
        if few.as_slice().len() == MAX_LITERALS {
            return None;
        }
        few.push(*literal);
    }
    Some(few)
}
