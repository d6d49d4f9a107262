//! The program `otp`: the words of the machine, its files and its standard output, and `run`.
#![tactic(auto)]

ghost use Rattle.std.specs.Prelude.{◌≡◌, ◌⊎◌, IfOk, List, OnErr, String as Text, drop, map, string_bytes};
ghost use Rattle.std.specs.declared.alloc.Global.{Global as Heap};
ghost use Rattle.std.specs.Iterator.{Drains};
ghost use Rattle.std.specs.Process.{exit_status};
ghost use Rattle.otp.specs.Ended.{Ended};

use ot_outside::{FileShelf, NoMemory, StdSink};
use ot_top::{NO_MEMORY, run};
use std::alloc::Global;
use std::env::{self, Args};
use std::io::{self, ErrorKind};
use std::process::ExitCode;
use std::rt::Files;

/// The machine refused the program its words: one of them is no text, for example.
const NO_WORDS: u8 = 11;

// The words that the machine gives, in their order. The first is the program's name.
fn words_of(alloc: Global, args: Args) -> Result<Vec<String>, NoMemory>
    ensures { IfOk result (λ words. Drains ⟦<Args as Iterator>⟧.next_gives args words.items) }
{
    args.collect(alloc)
}

// Those after the program's name.
fn after_name(words: &[String]) -> &[String]
    ensures { result.now ≡ drop 1 words.now }
{
    match words.split_first() {
        Some((_name, others)) => others,
        None => words,
    }
}

// Ends with what `run` answers the words, over the machine's files and its standard output.
fn end_with_run<R: Files + Print>(rt: &R, alloc: Global, words: &[String]) -> ExitCode
    ensures { Ended (map string_bytes words.now) (exit_status result) }
{
    let mut shelf = FileShelf::new(rt);
    let mut out = StdSink::new(rt);
    ExitCode::from(run(alloc, words, &mut shelf, &mut out))
}

// Ends as the program does that was given these words, or none.
fn end<R: Files + Print>(rt: &R, alloc: Global, args: io::Result<Args>) -> ExitCode
    ensures words { IfOk args (λ given. (exit_status result ≡ NO_MEMORY) ⊎ ((words : List (Text Heap))
        × Drains ⟦<Args as Iterator>⟧.next_gives given words
        × Ended (map string_bytes (drop 1 words)) (exit_status result))) }
    ensures no_words { OnErr args ((exit_status result ≡ NO_MEMORY) ⊎ (exit_status result ≡ NO_WORDS)) }
{
    let args = match args {
        Ok(args) => args,
        Err(error) if error.kind() == ErrorKind::OutOfMemory => return ExitCode::from(NO_MEMORY),
        Err(_) => return ExitCode::from(NO_WORDS),
    };
    let Ok(words) = words_of(alloc, args) else {
        return ExitCode::from(NO_MEMORY);
    };
    end_with_run(rt, alloc, after_name(words.as_slice()))
}

// No clause can stand here.
fn main(rt: HostRuntime) -> ExitCode {
    end(&rt, rt.alloc(), env::args(&rt))
}
