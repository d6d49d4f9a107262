//! A command over files in memory.
use ot_outside::{MemShelf, MemSink};
use ot_top::run;
use std::alloc::{AllocError, Global};

/// The files of a shelf: names and contents.
pub type Files<'a> = &'a [(&'a str, &'a str)];

// The words of a line.
fn words_of(alloc: Global, line: &str) -> Result<Vec<String>, AllocError> {
    let mut words = Vec::new(alloc);
    for word in line.split(' ') {
        words.push(String::from_str(alloc, word)?)?;
    }
    Ok(words)
}

/// A shelf with these files, whose call of this number fails.
pub fn shelf_of(alloc: Global, files: Files<'_>, failing: u32) -> Result<MemShelf, AllocError> {
    let mut held = Vec::new(alloc);
    for (name, text) in files {
        let name = String::from_str(alloc, name)?;
        let bytes = Vec::from_slice(alloc, text.as_bytes())?;
        held.push((name, bytes))?;
    }
    Ok(MemShelf::new(held, vec![in alloc; failing]?))
}

/// A sink that takes a byte at a call, of which the one of this number fails.
fn sink_of_bytes(alloc: Global, failing: u32) -> Result<MemSink, AllocError> {
    Ok(MemSink::new(alloc, 1_024, 1, vec![in alloc; failing]?)?)
}

/// The status of a command over a shelf, which writes to the sink.
pub fn status_of(
    alloc: Global,
    line: &str,
    mut shelf: MemShelf,
    sink: &mut MemSink,
) -> Result<u8, AllocError> {
    let words = words_of(alloc, line)?;
    Ok(run(alloc, words.as_slice(), &mut shelf, sink))
}

/// Whether a command over this shelf ends with the status and has written the text.
pub fn answers(
    alloc: Global,
    line: &str,
    shelf: MemShelf,
    mut sink: MemSink,
    status: u8,
    text: &[u8],
) -> Result<bool, AllocError> {
    let found = status_of(alloc, line, shelf, &mut sink)?;
    Ok(found == status && sink.written() == text)
}

// Whether the command ends with 6 and writes nothing where a call of the shelf fails. It makes so many.
fn tells_failed_calls(
    alloc: Global,
    files: Files<'_>,
    line: &str,
    calls: u32,
) -> Result<bool, AllocError> {
    for call in 1..=calls {
        let shelf = shelf_of(alloc, files, call)?;
        if !answers(alloc, line, shelf, sink_of_bytes(alloc, 0)?, 6, b"")? {
            return Ok(false);
        }
    }
    Ok(true)
}

// Whether it ends with 7 where a byte of its text is not taken, and has written what stands before that byte.
fn tells_failed_bytes(
    alloc: Global,
    files: Files<'_>,
    line: &str,
    text: &[u8],
) -> Result<bool, AllocError> {
    let mut front = Vec::new(alloc);
    for (byte, call) in text.iter().zip(1..1_000) {
        let shelf = shelf_of(alloc, files, 0)?;
        if !answers(
            alloc,
            line,
            shelf,
            sink_of_bytes(alloc, call)?,
            7,
            front.as_slice(),
        )? {
            return Ok(false);
        }
        front.push(*byte)?;
    }
    Ok(true)
}

/// Whether the command over these files tells each fault of the outside, and else has the status and the text. It makes
/// so many calls of the shelf: a further one would fail.
pub fn tells_faults(
    alloc: Global,
    files: Files<'_>,
    line: &str,
    calls: u32,
    status: u8,
    text: &[u8],
) -> Result<bool, AllocError> {
    let shelf = shelf_of(alloc, files, calls.saturating_add(1))?;
    Ok(
        answers(alloc, line, shelf, sink_of_bytes(alloc, 0)?, status, text)?
            && tells_failed_calls(alloc, files, line, calls)?
            && tells_failed_bytes(alloc, files, line, text)?,
    )
}
