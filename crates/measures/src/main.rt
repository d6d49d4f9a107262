//! Measures, and no part of the product: the first word says of what (`paths`, `texts`, `graphs`, `questions`), and the
//! scripts of `bench/` report time and memory. Without words each runs once, on little.
#![tactic(auto)]

mod graphs;
mod paths;
mod questions;
mod texts;

use std::env::Args;
use std::io::{Error, ErrorKind};
use std::{env, io};

// The next word behind the subject.
fn word_of(words: &mut Args) -> io::Result<String> {
    match words.next() {
        Some(word) => Ok(word),
        None => Err(Error::from(ErrorKind::InvalidInput)),
    }
}

fn number_of(words: &mut Args) -> io::Result<u32> {
    match word_of(words)?.parse::<u32>() {
        Ok(number) => Ok(number),
        Err(_) => Err(Error::from(ErrorKind::InvalidInput)),
    }
}

fn run_all(rt: &HostRuntime) -> io::Result<()> {
    paths::report(rt)?;
    texts::report(rt, "loose.ot")?;
    graphs::report(rt, "bounds", 1000, 3)?;
    questions::report(rt, "rules16.ot", 2000)
}

fn main(rt: HostRuntime) -> io::Result<()> {
    let mut words = env::args(&rt)?;
    let _program = words.next();
    let Some(subject) = words.next() else {
        return run_all(&rt);
    };
    match subject.as_str() {
        "paths" => paths::report(&rt),
        "texts" => {
            let name = word_of(&mut words)?;
            texts::report(&rt, &name)
        }
        "graphs" => {
            let mode = word_of(&mut words)?;
            let count = number_of(&mut words)?;
            let rounds = number_of(&mut words)?;
            graphs::report(&rt, &mode, count, rounds)
        }
        "questions" => {
            let name = word_of(&mut words)?;
            let turns = number_of(&mut words)?;
            questions::report(&rt, &name, turns)
        }
        _ => Err(Error::from(ErrorKind::InvalidInput)),
    }
}
