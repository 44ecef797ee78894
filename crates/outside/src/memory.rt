//! Shelves and sinks in memory: plain ones, whose counts are always 0, and ones with a list of calls that fail.

ghost use Rattle.std.specs.Prelude.{◌≡◌, ◌<◌, true, Some, [], option_map};
ghost use Rattle.std.specs.BTreeMap.{get_by_text};

use crate::outside::{ReadRefusal, Shelf, Sink, WriteRefusal};
use crate::plan::Plan;
use std::alloc::Global;
use std::collections::BTreeMap;

/// Files in memory, by their names.
#[derive(Drop)]
pub struct MapShelf {
    alloc: Global,
    pub files: BTreeMap<String, Vec<u8>>,
}

impl MapShelf {
    /// A shelf of these files.
    pub fn new(alloc: Global, files: BTreeMap<String, Vec<u8>>) -> Self
        ensures { result.files ≡ files }
    {
        MapShelf { alloc, files }
    }
}

impl Shelf for MapShelf {
    ghost content = { λ s. Some (λ name. option_map (λ bytes. bytes.items) (get_by_text s.files name)) };

    ghost read_faults = { λ _. 0 };

    ghost write_faults = { λ _. 0 };

    fn read_file(&mut self, alloc: Global, name: &str, limit: u64) -> Result<Vec<u8>, ReadRefusal> {
        match self.files.get(name) {
            None => Err(ReadRefusal::Missing),
            Some(bytes) => {
                if bytes.len() as u64 > limit {
                    return Err(ReadRefusal::TooLarge);
                }
                match bytes.to_vec(alloc) {
                    Ok(copy) => Ok(copy),
                    Err(_) => Err(ReadRefusal::NoMemory),
                }
            }
        }
    }

    fn write_file(&mut self, name: &str, bytes: &[u8]) -> Result<(), WriteRefusal> {
        let Ok(key) = name.to_string(self.alloc) else {
            return Err(WriteRefusal::NoMemory);
        };
        let Ok(copy) = bytes.to_vec(self.alloc) else {
            return Err(WriteRefusal::NoMemory);
        };
        match self.files.insert(key, copy) {
            Ok(_) => Ok(()),
            Err(_) => Err(WriteRefusal::NoMemory),
        }
    }
}

/// A shelf some of whose calls fail and leave the files as they were.
#[derive(Drop)]
pub struct FailingShelf {
    pub inner: MapShelf,
    plan: Plan,
    read_faults: u64,
    write_faults: u64,
}

impl FailingShelf {
    /// The calls are counted from 0, reads and writes together; those in `fails` fail.
    pub fn new(inner: MapShelf, fails: Vec<u64>) -> Self
        ensures inner { result.inner ≡ inner }
        ensures plan { (result.plan.calls ≡ 0) × (result.plan.fails ≡ fails) }
    {
        FailingShelf {
            inner,
            plan: Plan::new(fails),
            read_faults: 0,
            write_faults: 0,
        }
    }
}

impl Shelf for FailingShelf {
    ghost content = { λ s. Some (λ name. option_map (λ bytes. bytes.items) (get_by_text s.inner.files name)) };

    ghost read_faults = { λ s. s.read_faults };

    ghost write_faults = { λ s. s.write_faults };

    fn read_file(&mut self, alloc: Global, name: &str, limit: u64) -> Result<Vec<u8>, ReadRefusal> {
        if self.plan.fails_now() {
            self.read_faults = self.read_faults.saturating_add(1);
            return Err(ReadRefusal::Failed);
        }
        self.inner.read_file(alloc, name, limit)
    }

    fn write_file(&mut self, name: &str, bytes: &[u8]) -> Result<(), WriteRefusal> {
        if self.plan.fails_now() {
            self.write_faults = self.write_faults.saturating_add(1);
            return Err(WriteRefusal::Failed);
        }
        self.inner.write_file(name, bytes)
    }
}

/// Keeps what is written to it, and takes at most so many bytes of a piece at a time.
#[derive(Drop)]
pub struct VecSink {
    pub bytes: Vec<u8>,
    most: usize,
    ghost some: { 0 < most },
}

impl VecSink {
    /// An empty sink that takes at most `most` bytes a write.
    pub fn new(alloc: Global, most: usize) -> Self
        requires { 0 < most }
        ensures { result.bytes.items ≡ [] }
    {
        VecSink {
            bytes: Vec::new(alloc),
            most,
        }
    }
}

impl Sink for VecSink {
    ghost written = { λ s. Some s.bytes.items };

    ghost faults = { λ _. 0 };

    ghost takes_memory = { true };

    fn write(&mut self, piece: &[u8]) -> Result<usize, WriteRefusal> {
        let part = if piece.len() > self.most {
            &piece[..self.most]
        } else {
            piece
        };
        match self.bytes.extend_from_slice(part) {
            Ok(()) => Ok(part.len()),
            Err(_) => Err(WriteRefusal::NoMemory),
        }
    }
}

/// A sink some of whose writes fail.
#[derive(Drop)]
pub struct FailingSink {
    pub inner: VecSink,
    plan: Plan,
    faults: u64,
}

impl FailingSink {
    /// The writes are counted from 0; those in `fails` fail.
    pub fn new(inner: VecSink, fails: Vec<u64>) -> Self
        ensures inner { result.inner ≡ inner }
        ensures plan { (result.plan.calls ≡ 0) × (result.plan.fails ≡ fails) }
    {
        FailingSink {
            inner,
            plan: Plan::new(fails),
            faults: 0,
        }
    }
}

impl Sink for FailingSink {
    ghost written = { λ s. Some s.inner.bytes.items };

    ghost faults = { λ s. s.faults };

    ghost takes_memory = { true };

    fn write(&mut self, piece: &[u8]) -> Result<usize, WriteRefusal> {
        if self.plan.fails_now() {
            self.faults = self.faults.saturating_add(1);
            return Err(WriteRefusal::Failed);
        }
        self.inner.write(piece)
    }
}
