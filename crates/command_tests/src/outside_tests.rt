//! Which calls of the shelves and sinks in memory fail, and that all others don't; and what real files answer to a write.

use outside::{
    FailingShelf, FailingSink, MapShelf, ReadRefusal, RealShelf, Shelf, VecSink, WriteRefusal,
    write_piece,
};
use std::alloc::Global;
use std::collections::BTreeMap;
use std::test::Fail;

/// Whether a read of `a` is refused so.
fn refuses(alloc: Global, files: &mut FailingShelf, wants: ReadRefusal) -> bool {
    match files.read_file(alloc, "a", 4) {
        Ok(_) => false,
        Err(refusal) => refusal == wants,
    }
}

/// Whether a read of `a` gives these bytes.
fn gives(alloc: Global, files: &mut FailingShelf, wants: &[u8]) -> bool {
    match files.read_file(alloc, "a", 4) {
        Ok(bytes) => bytes.as_slice() == wants,
        Err(_) => false,
    }
}

/// Whether `a` can be written, or else is refused for a fault.
fn takes(files: &mut FailingShelf, bytes: &[u8], wants: bool) -> bool {
    match files.write_file("a", bytes) {
        Ok(()) => wants,
        Err(WriteRefusal::Failed) => !wants,
        Err(WriteRefusal::NoMemory) => false,
    }
}

/// Whether the first four calls answer as they have to where the calls 1 and 3 fail.
fn is_missing_and_then_there(alloc: Global, files: &mut FailingShelf) -> bool {
    refuses(alloc, files, ReadRefusal::Missing)
        && refuses(alloc, files, ReadRefusal::Failed)
        && takes(files, b"four", true)
        && takes(files, b"other", false)
}

/// Whether the next calls do.
fn is_there_and_then_too_large(alloc: Global, files: &mut FailingShelf) -> bool {
    gives(alloc, files, b"four")
        && takes(files, b"fives", true)
        && refuses(alloc, files, ReadRefusal::TooLarge)
}

fn answers_in_turn(alloc: Global, files: &mut FailingShelf) -> bool {
    is_missing_and_then_there(alloc, files) && is_there_and_then_too_large(alloc, files)
}

#[test]
fn two_calls_of_a_shelf_fail_and_no_other(rt: HostRuntime) -> Result<(), Fail> {
    let fails = [1u64, 3].to_vec(rt.alloc())?;
    let none = MapShelf::new(rt.alloc(), BTreeMap::new(rt.alloc()));
    let mut files = FailingShelf::new(none, fails);
    assert!(rt; answers_in_turn(rt.alloc(), &mut files));
    Ok(())
}

/// Whether a sink that takes a byte at a time has the whole piece.
fn takes_all(sink: &mut VecSink) -> bool {
    let answer = write_piece(sink, b"hello");
    answer.is_ok() && sink.bytes.as_slice() == b"hello".as_slice()
}

/// Whether a sink that takes three at a time and then fails has the first six.
fn takes_six(sink: &mut FailingSink) -> bool {
    let answer = write_piece(sink, b"hello, all");
    answer.is_err() && sink.inner.bytes.as_slice() == b"hello,".as_slice()
}

#[test]
fn a_sink_takes_all_byte_by_byte(rt: HostRuntime) {
    let mut slow = VecSink::new(rt.alloc(), 1);
    assert!(rt; takes_all(&mut slow));
}

#[test]
fn a_sink_that_fails_keeps_what_it_had(rt: HostRuntime) -> Result<(), Fail> {
    let fails = [2u64].to_vec(rt.alloc())?;
    let mut failing = FailingSink::new(VecSink::new(rt.alloc(), 3), fails);
    assert!(rt; takes_six(&mut failing));
    Ok(())
}

/// Whether a real file is written, and one in no folder isn't.
fn writes_one<S: Shelf>(files: &mut S) -> bool {
    files.write_file("/dev/null", b"x").is_ok() && files.write_file("no/such", b"x").is_err()
}

#[test]
fn a_real_file_is_written_or_refused(rt: HostRuntime) {
    let mut files = RealShelf::new(&rt);
    assert!(rt; writes_one(&mut files));
}
