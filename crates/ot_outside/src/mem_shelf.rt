// Files in memory.
ghost use Rattle.std.specs.Prelude.{◌≡◌, ◌<◌, ◌≤◌, ◌↔◌, ◌||◌, ℕ, List, [], take, drop, length, ◌++◌, min};
ghost use Rattle.std.specs.Prelude.{if◌then◌else◌, is_err, is_none, IfOk, OnOk, OnErr, MatchOption, bytes_eq};
ghost use Rattle.std.specs.Prelude.{string_bytes};
ghost use Rattle.ot_outside.specs.Faults.{Rose, next_count};
ghost use Rattle.ot_outside.specs.Files.{contents_at, held};

use crate::counts::Counts;
use crate::record::Record;
use crate::{Failed, Shelf};

/// A list of files in memory, and a list of the calls that fail.
///
/// `open` and `read` are counted together from 1. A call whose number is listed fails, and so does
/// an `open` of a name that the list does not hold. No other call fails. Every name is on offer.
/// Where a name stands twice in the list, the first counts.
#[derive(Drop)]
pub struct MemShelf {
    files: Vec<(String, Vec<u8>)>,
    counts: Counts,
    opened: Option<OpenFile>,
    noted: Record,
}

// The open file, by its number in the list, and how many of its bytes were taken.
#[derive(Clone, Copy)]
struct OpenFile {
    file: usize,
    taken: usize,
}

impl MemShelf {
    ghost use Rattle.ot_outside.specs.MemShelf.{call_count, failing_calls, fault_count, reads_by, shelf_holds};
    ghost use Rattle.ot_outside.specs.MemShelf.{shelf_left};
    ghost use Rattle.ot_outside.specs.Reads.{no_reads};

    /// A shelf with these files, of which none is open. It takes no memory.
    pub fn new(files: Vec<(String, Vec<u8>)>, failing: Vec<u32>) -> MemShelf
        ensures holds { (n : List ℕ) → shelf_holds result n ≡ held files.items n }
        ensures left { shelf_left result ≡ [] }
        ensures failing { failing_calls result ≡ failing.items }
        ensures calls { call_count result ≡ 0 }
        ensures faults { fault_count result ≡ 0 }
        ensures reads { reads_by result ≡ no_reads }
    {
        MemShelf {
            files,
            counts: Counts::new(failing),
            opened: None,
            noted: Record::new(),
        }
    }
}

impl Shelf for MemShelf {
    ghost use Rattle.std.specs.Prelude.{Some};
    ghost use Rattle.ot_outside.specs.MemShelf.{call_count, failing_calls, fails_next, fault_count, reads_by};
    ghost use Rattle.ot_outside.specs.MemShelf.{shelf_holds, shelf_left};
    ghost use Rattle.ot_outside.specs.Reads.{after_reading, gone_on};

    ghost holds = { shelf_holds };

    ghost offered = { λ _ _. Unit {0} };

    ghost left = { λ shelf. Some (shelf_left shelf) };

    ghost faults = { fault_count };

    ghost calls = { call_count };

    ghost reads = { reads_by };

    fn open(&mut self, name: &str) -> Result<(), Failed>
        ensures ok { OnOk result (Some (shelf_left self.new) ≡ shelf_holds self.old name.now) }
        ensures err { OnErr result (shelf_left self.new ≡ []) }

        ensures holds { (n : List ℕ) → shelf_holds self.new n ≡ shelf_holds self.old n }
        ensures offered { (n : List ℕ) → Unit {0} ↔ Unit {0} }
        ensures faults { fault_count self.old ≤ fault_count self.new }

        ensures failed { OnErr result (Rose (fault_count self.old) (fault_count self.new)) }

        // It fails exactly where its number is listed or the name is not held, and that counts.
        ensures fails { is_err result ≡ (fails_next self.old || is_none (shelf_holds self.old name.now)) }
        ensures raised { fault_count self.new ≡ (if is_err result then next_count (fault_count self.old)
            else fault_count self.old) }
        ensures called { call_count self.new ≡ next_count (call_count self.old) }
        ensures opened { reads_by self.new ≡ after_reading name.now [] (reads_by self.old) }
        ensures failing { failing_calls self.new ≡ failing_calls self.old }
    {
        self.noted.begin(name.as_bytes());
        self.opened = None;
        self.counts.call()?;
        match file_named(&self.files, name) {
            Some(file) => {
                self.opened = Some(OpenFile { file, taken: 0 });
                Ok(())
            }
            None => Err(self.counts.fault()),
        }
    }

    fn read(&mut self, into: &mut [u8]) -> Result<usize, Failed>
        requires { 0 < length into.old }

        ensures count { IfOk result (λ n. n ≤ length into.new) }
        ensures ok { IfOk result (λ n. shelf_left self.old ≡ take n into.new ++ shelf_left self.new) }
        ensures end { IfOk result (λ n. n ≡ 0 → shelf_left self.old ≡ []) }
        ensures err { OnErr result (shelf_left self.new ≡ shelf_left self.old) }

        ensures holds { (n : List ℕ) → shelf_holds self.new n ≡ shelf_holds self.old n }
        ensures offered { (n : List ℕ) → Unit {0} ↔ Unit {0} }
        ensures faults { fault_count self.old ≤ fault_count self.new }

        ensures failed { OnErr result (Rose (fault_count self.old) (fault_count self.new)) }

        // It fails exactly where its number is listed, and that counts. It fills `into` as far as it can.
        ensures fails { is_err result ≡ fails_next self.old }
        ensures raised { fault_count self.new ≡ (if is_err result then next_count (fault_count self.old)
            else fault_count self.old) }
        ensures called { call_count self.new ≡ next_count (call_count self.old) }
        ensures given { IfOk result (λ n. reads_by self.new ≡ gone_on (take n into.new) (reads_by self.old)) }
        ensures not_given { OnErr result (reads_by self.new ≡ reads_by self.old) }
        ensures failing { failing_calls self.new ≡ failing_calls self.old }
        ensures full { IfOk result (λ n. n ≡ min (length into.old) (length (shelf_left self.old))) }
    {
        self.counts.call()?;
        let Some(mut place) = self.opened else {
            return Ok(0);
        };
        let contents = contents(&self.files, place.file);
        let count = take_next(contents, &mut place.taken, into);
        self.opened = Some(place);
        self.noted.note(&into[..count]);
        Ok(count)
    }
}

// The number of the first file of this name.
fn file_named(files: &[(String, Vec<u8>)], name: &str) -> Option<usize>
    ensures { MatchOption result (held files.now name.now ≡ None)
        (λ i. held files.now name.now ≡ Some (contents_at files.now i)) }
{
    for (i, file) in files.iter().enumerate() {
        if is_named(file, name) {
            return Some(i);
        }
    }
    None
}

fn is_named(file: &(String, Vec<u8>), name: &str) -> bool
    ensures { result ≡ bytes_eq (string_bytes file.now.0) name.now }
{
    file.0.as_str() == name
}

// What the file with this number holds, and nothing where there is none.
fn contents(files: &[(String, Vec<u8>)], file: usize) -> &[u8]
    ensures { result.now ≡ contents_at files.now file }
{
    match files.get(file) {
        Some(file) => &file.1,
        None => &[],
    }
}

// Copies the next bytes behind those that were taken, as many as `into` has room for.
fn take_next(contents: &[u8], taken: &mut usize, into: &mut [u8]) -> usize
    ensures count { result ≡ min (length into.old) (length (drop taken.old contents.now)) }
    ensures split { drop taken.old contents.now ≡ take result into.new ++ drop taken.new contents.now }
{
    let from = (*taken).min(contents.len());
    let count = copy_front(&contents[from..], into);
    *taken = from + count;
    count
}

// Copies as many bytes as both have.
fn copy_front(from: &[u8], into: &mut [u8]) -> usize
    ensures count { result ≡ min (length into.old) (length from.now) }
    ensures front { take result into.new ≡ take result from.now }
{
    let count = into.len().min(from.len());
    into[..count].copy_from_slice(&from[..count]);
    count
}
