//! The lines of a certificate beside its trees, each by its one spelling.
ghost use Rattle.std.specs.Prelude.{◌≡◌, ℕ, ◌+◌, ◌<◌, ◌≤◌, List, [], ◌∷◌, ◌++◌, length};
ghost use Rattle.std.specs.List.{list_any};
ghost use Rattle.cert_text.specs.Spelling.{end_text, has_update, header_text, kind_text, level_text, ob_text};
ghost use Rattle.cert_text.specs.Spelling.{version_text};
ghost use Rattle.cert_text.specs.Steps.{FitsHeader, FitsLine};

use fn_rules::{Level, ObName};
use ot_model::Kind;
use smallvec::SmallVec;
use std::alloc::Global;
use std::marker::Model;

/// The most bytes of a line.
pub(crate) const LINE_ROOM: usize = 15;

/// Bytes of a line, in place, so that no call takes memory.
#[derive(Drop)]
pub struct LineBytes {
    bytes: SmallVec<u8, LINE_ROOM>,
}

impl Model for LineBytes {
    ghost use Rattle.std.specs.Prelude.{◌≡◌, ◌≤◌, ℕ, List, length};
    ghost use Rattle.cert_text.specs.declared.line.TheConstants.{LINE_ROOM};

    ghost Value = { List ℕ };

    ghost view = { λ l. l.bytes.items };

    ghost invariant = { λ l. (length l.bytes.items ≤ LINE_ROOM) × (l.bytes.capacity ≡ LINE_ROOM) };
}

/// How a line begins with some bytes.
pub(crate) enum Fit {
    /// It is these bytes.
    Whole,

    /// They are a proper front of it.
    Front,

    /// It does not begin with them.
    Other,
}

impl LineBytes {
    pub fn new(alloc: Global) -> LineBytes
        ensures { result ≡ [] }
    {
        LineBytes {
            bytes: SmallVec::new(alloc),
        }
    }

    pub(crate) fn push(&mut self, byte: u8)
        requires { length self.old < LINE_ROOM }
        ensures { self.new ≡ self.old ++ byte ∷ [] }
    {
        self.bytes.push_reserved(byte);
    }

    pub fn as_slice(&self) -> &[u8]
        ensures value { result.now ≡ self.now }
        ensures most { length result.now ≤ LINE_ROOM }
    {
        self.bytes.as_slice()
    }

    fn extend(&mut self, bytes: &[u8])
        requires { length self.old + length bytes.now ≤ LINE_ROOM }
        ensures value { self.new ≡ self.old ++ bytes.now }
        ensures len { length self.new ≡ length self.old + length bytes.now }
    {
        for byte in bytes {
            self.push(*byte);
        }
    }

    /// How the line begins with the bytes.
    pub(crate) fn fit(&self, front: &LineBytes) -> Fit
        ensures value { FitsLine self.now front.now result }
        ensures most { length self.now ≤ LINE_ROOM }
    {
        fit_of(self.as_slice(), front.as_slice())
    }
}

fn fit_of(line: &[u8], front: &[u8]) -> Fit
    ensures { FitsLine line.now front.now result }
{
    if !line.starts_with(front) {
        return Fit::Other;
    }
    if line.len() == front.len() {
        return Fit::Whole;
    }
    Fit::Front
}

fn kind_word(kind: Kind) -> &'static [u8]
    ensures value { result.now ≡ kind_text kind }
    ensures len { length result.now ≡ 3 }
{
    match kind {
        Kind::Ins => b"ins",
        Kind::Del => b"del",
        Kind::Upd => b"upd",
    }
}

fn level_word(level: Level) -> &'static [u8]
    ensures value { result.now ≡ level_text level }
    ensures len { length result.now ≡ 3 }
{
    match level {
        Level::Tp1 => b"tp1",
        Level::Tp2 => b"tp2",
    }
}

fn speaks_of_updates(name: &ObName) -> bool
    ensures { result ≡ has_update name.now }
{
    match *name {
        ObName::Pair(k, l) => k == Kind::Upd || l == Kind::Upd,
        ObName::Triple(k, l, m) => k == Kind::Upd || l == Kind::Upd || m == Kind::Upd,
    }
}

fn some_speaks_of_updates(names: &[ObName]) -> bool
    ensures { result ≡ list_any has_update names.now }
{
    names.iter().any(|name| speaks_of_updates(name))
}

fn version_word(names: &[ObName]) -> &'static [u8]
    ensures value { result.now ≡ version_text names.now }
    ensures len { length result.now ≡ 1 }
{
    if some_speaks_of_updates(names) {
        b"2"
    } else {
        b"1"
    }
}

/// The first line of a certificate of a level that has these obligations.
pub(crate) fn header_line(alloc: Global, names: &[ObName], level: Level) -> LineBytes
    ensures { result ≡ header_text names.now level }
{
    let mut line = LineBytes::new(alloc);
    line.extend(b"otcert ");
    line.extend(version_word(names));
    line.push(b' ');
    line.extend(level_word(level));
    line.push(b'\n');
    line
}

/// The line before the tree of an obligation. The allocator is not asked for memory.
pub fn ob_line(alloc: Global, name: ObName) -> LineBytes
    ensures { result ≡ ob_text name }
{
    let mut line = LineBytes::new(alloc);
    line.extend(b"ob ");
    match name {
        ObName::Pair(k, l) => {
            line.extend(kind_word(k));
            line.push(b' ');
            line.extend(kind_word(l));
        }
        ObName::Triple(k, l, m) => {
            line.extend(kind_word(k));
            line.push(b' ');
            line.extend(kind_word(l));
            line.push(b' ');
            line.extend(kind_word(m));
        }
    }
    line.push(b'\n');
    line
}

/// The last line.
pub(crate) fn end_line(alloc: Global) -> LineBytes
    ensures { result ≡ end_text }
{
    let mut line = LineBytes::new(alloc);
    line.extend(b"end\n");
    line
}

/// How the header of a level begins with the bytes, if the level has obligations.
pub(crate) fn header_fit(alloc: Global, names: &[ObName], level: Level, front: &LineBytes) -> Fit
    ensures { FitsHeader names.now level front.now result }
{
    if names.is_empty() {
        return Fit::Other;
    }
    header_line(alloc, names, level).fit(front)
}
