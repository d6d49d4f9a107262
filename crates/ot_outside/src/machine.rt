// The files and the standard output of the machine.
ghost use Rattle.std.specs.Prelude.{◌≡◌, ◌<◌, ◌≤◌, ◌↔◌, ◌++◌, ℕ, List, [], take, length, Some, if◌then◌else◌, is_err, IfOk};
ghost use Rattle.std.specs.Prelude.{OnOk, OnErr};
ghost use Rattle.std.specs.Io.KnownBytes.{IsAtEnd, prepend_known};
ghost use Rattle.ot_outside.specs.Faults.{Rose, next_count};
ghost use Rattle.ot_outside.specs.Machine.{left_of, machine_holds};
ghost use Rattle.ot_outside.specs.Reads.{after_reading, gone_on, no_reads, reads_of};

use crate::record::Record;
use crate::{Failed, Shelf, Sink};
use std::fs::File;
use std::io::Read;
use std::rt::Files;

/// The files of the machine. It tells nothing of what they hold, and every name is on offer.
///
/// An error of the machine, from any cause, is a fault that counts. What its calls gave it notes, and no proof
/// says that it notes each of them.
#[derive(Drop)]
pub struct FileShelf<'a, R: Files> {
    rt: &'a R,
    file: Option<R::File>,
    faults: u64,
    calls: u64,
    noted: Record,
}

impl<'a, R: Files> FileShelf<'a, R> {
    /// No file is open. It takes no memory.
    pub fn new(rt: &'a R) -> FileShelf<'a, R>
        ensures left { ⟦<FileShelf<'a, R> as Shelf>⟧.left result ≡ Some [] }
        ensures faults { ⟦<FileShelf<'a, R> as Shelf>⟧.faults result ≡ 0 }
        ensures calls { ⟦<FileShelf<'a, R> as Shelf>⟧.calls result ≡ 0 }
        ensures reads { ⟦<FileShelf<'a, R> as Shelf>⟧.reads result ≡ no_reads }
    {
        FileShelf {
            rt,
            file: None,
            faults: 0,
            calls: 0,
            noted: Record::new(),
        }
    }
}

impl<R: Files> Shelf for FileShelf<'_, R> {
    ghost holds = { λ _. machine_holds };

    ghost offered = { λ _ _. Unit {0} };

    ghost left = { λ shelf. left_of shelf.file };

    ghost faults = { λ shelf. shelf.faults };

    ghost calls = { λ shelf. shelf.calls };

    ghost reads = { λ shelf. reads_of shelf.noted };

    fn open(&mut self, name: &str) -> Result<(), Failed>
        ensures ok { OnOk result (left_of self.new.file ≡ machine_holds name.now) }
        ensures err { OnErr result (left_of self.new.file ≡ Some []) }

        ensures holds { (n : List ℕ) → machine_holds n ≡ machine_holds n }
        ensures offered { (n : List ℕ) → Unit {0} ↔ Unit {0} }
        ensures faults { self.old.faults ≤ self.new.faults }

        ensures failed { OnErr result (Rose self.old.faults self.new.faults) }
        ensures called { self.new.calls ≡ next_count self.old.calls }
        ensures opened { reads_of self.new.noted ≡ after_reading name.now [] (reads_of self.old.noted) }

        // Each call that fails counts, and no other.
        ensures raised { self.new.faults ≡ (if is_err result then next_count self.old.faults else self.old.faults) }
    {
        self.calls = self.calls.saturating_add(1);
        self.noted.begin(name.as_bytes());
        self.file = None;
        match File::open(self.rt, name) {
            Ok(file) => {
                self.file = Some(file);
                Ok(())
            }
            Err(_) => {
                self.faults = self.faults.saturating_add(1);
                Err(Failed)
            }
        }
    }

    fn read(&mut self, into: &mut [u8]) -> Result<usize, Failed>
        requires { 0 < length into.old }

        ensures count { IfOk result (λ n. n ≤ length into.new) }
        ensures ok { IfOk result (λ n. left_of self.old.file
            ≡ prepend_known (take n into.new) (left_of self.new.file)) }
        ensures end { IfOk result (λ n. n ≡ 0 → IsAtEnd (left_of self.old.file)) }
        ensures err { OnErr result (left_of self.new.file ≡ left_of self.old.file) }

        ensures holds { (n : List ℕ) → machine_holds n ≡ machine_holds n }
        ensures offered { (n : List ℕ) → Unit {0} ↔ Unit {0} }
        ensures faults { self.old.faults ≤ self.new.faults }

        ensures failed { OnErr result (Rose self.old.faults self.new.faults) }
        ensures called { self.new.calls ≡ next_count self.old.calls }
        ensures given { IfOk result (λ n. reads_of self.new.noted
            ≡ gone_on (take n into.new) (reads_of self.old.noted)) }
        ensures not_given { OnErr result (reads_of self.new.noted ≡ reads_of self.old.noted) }

        // Each call that fails counts, and no other.
        ensures raised { self.new.faults ≡ (if is_err result then next_count self.old.faults else self.old.faults) }
    {
        self.calls = self.calls.saturating_add(1);
        let Some(file) = &mut self.file else {
            return Ok(0);
        };
        match file.read(into) {
            Ok(count) => {
                self.noted.note(&into[..count]);
                Ok(count)
            }
            Err(_) => {
                self.faults = self.faults.saturating_add(1);
                Err(Failed)
            }
        }
    }
}

/// The standard output of the machine.
///
/// An error of the machine, from any cause, and a write that takes nothing are faults that count. What its calls took
/// it notes, and no proof says that the machine was handed these bytes and no others.
#[derive(Drop)]
pub struct StdSink<'a, R: Print> {
    rt: &'a R,
    faults: u64,
    noted: Record,
}

impl<'a, R: Print> StdSink<'a, R> {
    /// Nothing was taken. It takes no memory.
    pub fn new(rt: &'a R) -> StdSink<'a, R>
        ensures faults { ⟦<StdSink<'a, R> as Sink>⟧.faults result ≡ 0 }
        ensures took { ⟦<StdSink<'a, R> as Sink>⟧.took result ≡ [] }
    {
        StdSink {
            rt,
            faults: 0,
            noted: Record::new(),
        }
    }
}

impl<R: Print> Sink for StdSink<'_, R> {
    ghost took = { λ sink. sink.noted.bytes };

    ghost faults = { λ sink. sink.faults };

    fn write(&mut self, bytes: &[u8]) -> Result<usize, Failed>
        requires { 0 < length bytes.now }

        ensures some { IfOk result (λ n. 0 < n) }
        ensures count { IfOk result (λ n. n ≤ length bytes.now) }
        ensures ok { IfOk result (λ n. self.new.noted.bytes ≡ self.old.noted.bytes ++ take n bytes.now) }
        ensures err { OnErr result (self.new.noted.bytes ≡ self.old.noted.bytes) }
        ensures faults { self.old.faults ≤ self.new.faults }

        ensures failed { OnErr result (Rose self.old.faults self.new.faults) }

        // Each call that fails counts, and no other.
        ensures raised { self.new.faults ≡ (if is_err result then next_count self.old.faults else self.old.faults) }
    {
        match self.rt.write_some(bytes) {
            Ok(count) if count > 0 => {
                self.noted.note(&bytes[..count]);
                Ok(count)
            }
            _ => {
                self.faults = self.faults.saturating_add(1);
                Err(Failed)
            }
        }
    }
}
