//! The first line of a low certificate.
ghost use Rattle.std.specs.Prelude.{◌≡◌, ◌≤◌, [], ◌∷◌, ◌++◌, codes, IfOk, OnOk};
ghost use Rattle.cert_text.specs.Spelling.{level_text};
ghost use Rattle.ot_bound.specs.Headers.{FitsBound, FitsLevel, FitsLowHeader};
ghost use Rattle.ot_bound.specs.Lows.{low_header_text};

use ask_core::NoMemory;
use fn_rules::Level;
use itoa::Buffer;
use ot_sections::MAX_BOUND;
use std::alloc::Global;

/// How the first lines of low certificates begin with some bytes.
pub(crate) enum HeaderFit {
    /// One of them is these bytes.
    Whole(Level, u32),

    /// They are a proper front of one.
    Front,

    /// None begins with them.
    Other,
}

// The line up to its bound.
fn words_before_bound(level: Level) -> &'static [u8]
    ensures { result.now ≡ codes "otlow 1 " ++ level_text level ++ 32 ∷ [] }
{
    match level {
        Level::Tp1 => b"otlow 1 tp1 ",
        Level::Tp2 => b"otlow 1 tp2 ",
    }
}

/// Appends the first line of a low certificate. The error is want of memory.
pub fn write_low_header(level: Level, bound: u32, out: &mut Vec<u8>) -> Result<(), NoMemory>
    ensures { OnOk result (out.new.items ≡ out.old.items ++ low_header_text level bound) }
{
    let mut buffer = Buffer::new();
    out.extend_from_slice(words_before_bound(level))?;
    out.extend_from_slice(buffer.format(bound).as_bytes())?;
    out.push(b'\n')?;
    Ok(())
}

// How the line of a level and a bound begins with the bytes.
fn bound_fit(alloc: Global, level: Level, bound: u32, front: &[u8]) -> Result<HeaderFit, NoMemory>
    ensures { IfOk result (FitsBound level bound front.now) }
{
    let mut line = Vec::new(alloc);
    write_low_header(level, bound, &mut line)?;
    match line.strip_prefix(front) {
        None => Ok(HeaderFit::Other),
        Some([]) => Ok(HeaderFit::Whole(level, bound)),
        Some(_) => Ok(HeaderFit::Front),
    }
}

// How the lines of a level begin with them.
fn level_fit(alloc: Global, level: Level, front: &[u8]) -> Result<HeaderFit, NoMemory>
    ensures { IfOk result (FitsLevel level front.now) }
{
    for bound in 0..MAX_BOUND + 1 {
        match bound_fit(alloc, level, bound, front)? {
            HeaderFit::Other => {}
            fit => return Ok(fit),
        }
    }
    Ok(HeaderFit::Other)
}

/// How the first lines of low certificates begin with the bytes.
pub(crate) fn header_fit(alloc: Global, front: &[u8]) -> Result<HeaderFit, NoMemory>
    ensures { IfOk result (FitsLowHeader front.now) }
{
    match level_fit(alloc, Level::Tp1, front)? {
        HeaderFit::Other => level_fit(alloc, Level::Tp2, front),
        fit => Ok(fit),
    }
}
