//! Bytes of files and of slices. Files of the machine and its standard output are those of the built program's rows.
use ot_outside::{
    Failed, Feed, MemShelf, MemSink, NoMemory, ReadError, Shelf, ShelfFeed, SliceFeed, read_all,
    write_all,
};
use std::alloc::Global;

// A shelf with one file. The call with this number fails, of which the first opens the file.
fn shelf_of(alloc: Global, bytes: &[u8], failing: u32) -> Result<MemShelf, NoMemory> {
    let mut files = Vec::new(alloc);
    files.push((
        String::from_str(alloc, "file")?,
        Vec::from_slice(alloc, bytes)?,
    ))?;
    Ok(MemShelf::new(files, Vec::from_slice(alloc, &[failing])?))
}

// The one file is opened, whose first byte is given; and whether more follow is told.
fn gives_one(shelf: &mut MemShelf, more: bool) -> bool {
    if shelf.open("file").is_err() {
        return false;
    }
    let mut feed = ShelfFeed::new(shelf, 1);
    feed.next() == Ok(Some(b'a')) && feed.next() == Ok(None) && feed.too_long() == Ok(more)
}

fn is_given(alloc: Global, bytes: &[u8], more: bool) -> Result<bool, NoMemory> {
    Ok(gives_one(&mut shelf_of(alloc, bytes, 0)?, more))
}

#[test]
fn a_file_is_given_up_to_the_limit(rt: HostRuntime) {
    assert!(rt; is_given(rt.alloc(), b"ab", true) == Ok(true));
    assert!(rt; is_given(rt.alloc(), b"a", false) == Ok(true));
}

// The first read fails, and the second one gives what it would have given.
fn gives_after_failing(shelf: &mut MemShelf) -> bool {
    if shelf.open("file").is_err() {
        return false;
    }
    let mut feed = ShelfFeed::new(shelf, 1);
    feed.more() == Err(Failed) && feed.more() == Ok(true) && feed.at_hand() == b"a".as_slice()
}

fn is_given_after_failing(alloc: Global) -> Result<bool, NoMemory> {
    Ok(gives_after_failing(&mut shelf_of(alloc, b"ab", 2)?))
}

#[test]
fn a_failed_read_takes_nothing(rt: HostRuntime) {
    assert!(rt; is_given_after_failing(rt.alloc()) == Ok(true));
}

// The first byte is let go, and the second one is the last.
fn gives_two(feed: &mut SliceFeed<'_>) -> bool {
    if feed.more() != Ok(true) {
        return false;
    }
    let most = feed.at_hand().len();
    feed.consume(usize::min(1, most));
    feed.next() == Ok(Some(b'b')) && feed.more() == Ok(false)
}

#[test]
fn a_slice_is_given(rt: HostRuntime) {
    assert!(rt; gives_two(&mut SliceFeed::new(b"ab")));
}

// A file of five bytes is read to a limit, where the call with a number fails.
fn is_read(
    alloc: Global,
    limit: usize,
    failing: u32,
    want: Result<(), ReadError>,
    got: &[u8],
) -> Result<bool, NoMemory> {
    let mut shelf = shelf_of(alloc, b"hello", failing)?;
    let mut into = Vec::new(alloc);
    let answer = read_all(&mut shelf, "file", limit, &mut into);
    Ok(answer == want && into.as_slice() == got)
}

#[test]
fn a_file_is_read_whole_or_to_its_limit(rt: HostRuntime) {
    let alloc = rt.alloc();
    assert!(rt; is_read(alloc, 5, 0, Ok(()), b"hello") == Ok(true));
    assert!(rt; is_read(alloc, 4, 0, Err(ReadError::TooLong), b"hell") == Ok(true));
    assert!(rt; is_read(alloc, 9, 3, Err(ReadError::Failed), b"hello") == Ok(true));
}

// Five bytes are written into a sink of some room, at most two a call, where the second call fails or none.
fn is_written(
    alloc: Global,
    room: usize,
    failing: u32,
    want: Result<(), Failed>,
    written: &[u8],
) -> Result<bool, NoMemory> {
    let mut sink = MemSink::new(alloc, room, 2, Vec::from_slice(alloc, &[failing])?)?;
    let answer = write_all(&mut sink, b"hello");
    Ok(answer == want && sink.written() == written)
}

#[test]
fn bytes_are_written_whole_or_a_front_of_them(rt: HostRuntime) {
    let alloc = rt.alloc();
    assert!(rt; is_written(alloc, 9, 0, Ok(()), b"hello") == Ok(true));
    assert!(rt; is_written(alloc, 4, 0, Err(Failed), b"hell") == Ok(true));
    assert!(rt; is_written(alloc, 9, 2, Err(Failed), b"he") == Ok(true));
}
