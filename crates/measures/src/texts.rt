//! The text of a function, read and printed.
ghost use Rattle.std.specs.Prelude.{◌<◌, ◌^◌, length, IfOk};

use fn_text::{TextError, print, read};
use ot_outside::{FileShelf, read_all};
use std::alloc::Global;
use std::io;
use std::io::{Error, ErrorKind};

/// The longest file that is measured, in bytes.
const LIMIT: usize = 16_777_216;

/// The bytes of a function's file.
pub fn file_named(rt: &HostRuntime, name: &str) -> io::Result<Vec<u8>>
    ensures { IfOk result (λ bytes. length bytes.items < 2 ^ 31) }
{
    let mut bytes = Vec::new(rt.alloc());
    match read_all(&mut FileShelf::new(rt), name, LIMIT, &mut bytes) {
        Ok(()) => Ok(bytes),
        Err(_) => Err(Error::from(ErrorKind::Other)),
    }
}

// How many bytes the canonical text of the function has.
fn printed_size(alloc: Global, bytes: &[u8]) -> Result<usize, TextError>
    requires { length bytes.now < 2 ^ 31 }
{
    let rules = read(alloc, bytes)?;
    Ok(print(alloc, &rules)?.len())
}

/// Reads a function file, prints the function, and says how many bytes each has.
pub fn report(rt: &HostRuntime, name: &str) -> io::Result<()> {
    let bytes = file_named(rt, name)?;
    match printed_size(rt.alloc(), &bytes) {
        Ok(size) => println!(rt; "{name}: {} bytes, printed in {size}", bytes.len()),
        Err(_) => println!(rt; "{name}: not read"),
    }
}
