//! How a byte within an array or an object stands.
ghost use Rattle.std.specs.Prelude.{◌≡◌, ◌<◌, ◌^◌};
ghost use Rattle.json_places.specs.Spots.{closes, depth_of, ends, opens, parts, spot_behind};
ghost use Rattle.json_places.specs.declared.spot.Spot.TheVariants as spots;

/// How a byte within an array or an object stands, and in how many of the brackets that are opened there.
#[derive(Clone, Copy, PartialEq, Eq)]
pub enum Spot {
    /// Outside of strings.
    Plain(usize),

    /// In a string.
    Quoted(usize),

    /// In a string, behind a backslash.
    Escaped(usize),
}

fn opens(byte: u8) -> bool
    ensures { result ≡ opens byte }
{
    byte == b'[' || byte == b'{'
}

/// Whether a byte is a bracket that closes.
pub(crate) fn closes(byte: u8) -> bool
    ensures { result ≡ closes byte }
{
    byte == b']' || byte == b'}'
}

// How what is behind a byte outside of strings stands.
fn behind_plain(depth: usize, byte: u8) -> Spot
    requires { depth < 2 ^ 63 }
    ensures { result ≡ spot_behind (spots.Plain depth) byte }
{
    if byte == b'"' {
        Spot::Quoted(depth)
    } else if opens(byte) {
        Spot::Plain(depth + 1)
    } else if closes(byte) {
        Spot::Plain(depth.saturating_sub(1))
    } else {
        Spot::Plain(depth)
    }
}

// The same in a string.
fn behind_quoted(depth: usize, byte: u8) -> Spot
    ensures { result ≡ spot_behind (spots.Quoted depth) byte }
{
    if byte == b'"' {
        Spot::Plain(depth)
    } else if byte == b'\\' {
        Spot::Escaped(depth)
    } else {
        Spot::Quoted(depth)
    }
}

impl Spot {
    /// How what is behind a byte stands.
    pub(crate) fn behind(self, byte: u8) -> Spot
        requires { depth_of self < 2 ^ 63 }
        ensures { result ≡ spot_behind self byte }
    {
        match self {
            Spot::Plain(depth) => behind_plain(depth, byte),
            Spot::Quoted(depth) => behind_quoted(depth, byte),
            Spot::Escaped(depth) => Spot::Quoted(depth),
        }
    }

    /// Whether the byte closes the array or the object.
    pub(crate) fn ends(self, byte: u8) -> bool
        ensures { result ≡ ends self byte }
    {
        match self {
            Spot::Plain(0) => closes(byte),
            _ => false,
        }
    }

    /// Whether the byte is a comma between two entries.
    pub(crate) fn parts(self, byte: u8) -> bool
        ensures { result ≡ parts self byte }
    {
        match self {
            Spot::Plain(0) => byte == b',',
            _ => false,
        }
    }
}
