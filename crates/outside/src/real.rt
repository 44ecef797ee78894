//! Real files and any real output. They tell nothing of what they hold, and are trusted.

ghost use Rattle.std.specs.Prelude.{◌≡◌, ◌<◌, ◌≤◌, true, false, None, IfOk, OnOk, IfSome, IsErrOf, length};
ghost use Rattle.std.specs.Io.KnownBytes.{WriteAppends};
ghost use Rattle.outside.specs.Outside.{Rose};

use crate::outside::{ReadRefusal, Shelf, Sink, WriteRefusal};
use std::alloc::Global;
use std::fs;
use std::io::{ErrorKind, Read, Write};
use std::rt::Files;

/// The files of the runtime. A file that isn't there is a failed read.
#[derive(Drop)]
pub struct RealShelf<'a, R> {
    rt: &'a R,
    read_faults: u64,
    write_faults: u64,
}

impl<'a, R: Files> RealShelf<'a, R> {
    /// The files that the runtime reaches.
    pub fn new(rt: &'a R) -> Self {
        RealShelf {
            rt,
            read_faults: 0,
            write_faults: 0,
        }
    }
}

/// Reads to the end, `TooLarge` as soon as more than `limit` bytes came.
fn read_all<F: Read>(alloc: Global, file: &mut F, limit: u64) -> Result<Vec<u8>, ReadRefusal>
    ensures within { IfOk result (λ bytes. length bytes.items ≤ limit) }
    ensures whole { IfOk result (λ bytes. IfSome (F.remaining file.old) (λ all. bytes.items ≡ all)) }
    ensures large { IsErrOf result ReadRefusal.TooLarge → IfSome (F.remaining file.old) (λ all. limit < length all) }
{
    let mut bytes = Vec::new(alloc);
    let mut buffer = [0u8; 4096];
    for _ in 0..u64::MAX {
        match file.read(&mut buffer) {
            Ok(0) => return Ok(bytes),
            Ok(count) => {
                if count as u64 > limit - bytes.len() as u64 {
                    return Err(ReadRefusal::TooLarge);
                }
                if bytes.extend_from_slice(&buffer[..count]).is_err() {
                    return Err(ReadRefusal::NoMemory);
                }
            }
            Err(_) => return Err(ReadRefusal::Failed),
        }
    }
    Err(ReadRefusal::Failed)
}

impl<'a, R: Files> Shelf for RealShelf<'a, R> {
    ghost content = { λ _. None };

    ghost read_faults = { λ s. s.read_faults };

    ghost write_faults = { λ s. s.write_faults };

    fn read_file(&mut self, alloc: Global, name: &str, limit: u64) -> Result<Vec<u8>, ReadRefusal> {
        let read = match fs::open(self.rt, name) {
            Ok(mut file) => read_all(alloc, &mut file, limit),
            Err(error) => match error.kind() {
                ErrorKind::OutOfMemory => Err(ReadRefusal::NoMemory),
                _ => Err(ReadRefusal::Failed),
            },
        };
        match read {
            Ok(bytes) => Ok(bytes),
            Err(ReadRefusal::TooLarge) => Err(ReadRefusal::TooLarge),
            Err(ReadRefusal::NoMemory) => Err(ReadRefusal::NoMemory),
            Err(_) => {
                self.read_faults = self.read_faults.saturating_add(1);
                Err(ReadRefusal::Failed)
            }
        }
    }

    fn write_file(&mut self, name: &str, bytes: &[u8]) -> Result<(), WriteRefusal> {
        match fs::write(self.rt, name, bytes) {
            Ok(()) => Ok(()),
            Err(_) => {
                self.write_faults = self.write_faults.saturating_add(1);
                Err(WriteRefusal::Failed)
            }
        }
    }
}

/// Any writer of std. A write that takes no bytes of a piece that has some is a fault.
#[derive(Drop)]
pub struct RealSink<W> {
    writer: W,
    faults: u64,
}

impl<W: Write> RealSink<W> {
    /// What is written goes to the writer.
    pub fn new(writer: W) -> Self {
        RealSink { writer, faults: 0 }
    }

    /// Hands a first part of the piece to the writer, which has exactly as many bytes more as are answered, where it is known what it has.
    fn hand_over(&mut self, piece: &[u8]) -> Result<usize, WriteRefusal>
        ensures taken { WriteAppends (W.contents self.old.writer) (W.contents self.new.writer) result piece.now }
        ensures count { IfOk result (λ n. n ≤ length piece.now) }
        ensures some { IfOk result (λ n. 0 < length piece.now → 0 < n) }
        ensures memory { IsErrOf result WriteRefusal.NoMemory → false ≡ true }
        ensures failed { IsErrOf result WriteRefusal.Failed → Rose self.old.faults self.new.faults }
        ensures uncounted { OnOk result (self.new.faults ≡ self.old.faults) }
        ensures uncounted_memory { IsErrOf result WriteRefusal.NoMemory → self.new.faults ≡ self.old.faults }
        ensures later { self.old.faults ≤ self.new.faults }
    {
        match self.writer.write(piece) {
            Ok(count) if count > 0 || piece.is_empty() => Ok(count),
            _ => {
                self.faults = self.faults.saturating_add(1);
                Err(WriteRefusal::Failed)
            }
        }
    }
}

impl<W: Write> Sink for RealSink<W> {
    ghost written = { λ _. None };

    ghost faults = { λ s. s.faults };

    ghost takes_memory = { false };

    fn write(&mut self, piece: &[u8]) -> Result<usize, WriteRefusal> {
        self.hand_over(piece)
    }
}
