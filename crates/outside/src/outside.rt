//! The files and the output as the program sees them.

ghost use Rattle.std.specs.Prelude.{◌≡◌, ◌≢◌, ◌≤◌, ◌<◌, List, ℕ, Bool, true, length, take, Option, Some, IfOk, OnOk, OnErr, IsErrOf, IfSome, IsSomeAnd, option_map};
ghost use Rattle.outside.specs.Outside.{Rose, file_at, Lacks, MayHold, Appends};

use std::alloc::Global;

/// Why a file wasn't read.
#[derive(Clone, Copy, PartialEq, Eq)]
pub enum ReadRefusal {
    /// There is no file of this name.
    Missing,
    /// The read failed, and was counted.
    Failed,
    /// The file is longer than the limit.
    TooLarge,
    /// There was not enough memory.
    NoMemory,
}

/// Why bytes weren't written.
#[derive(Clone, Copy, PartialEq, Eq)]
pub enum WriteRefusal {
    /// The write failed, and was counted.
    Failed,
    /// There was not enough memory.
    NoMemory,
}

/// Files by their names, and two counts of faults that only a failure raises. A shelf may tell what its files hold.
pub trait Shelf {
    /// The files by their names, where the shelf tells them.
    ghost content: { Self → Option (List ℕ → Option (List ℕ)) };

    /// How often a read has failed.
    ghost read_faults: { Self → ℕ };

    /// How often a write has failed.
    ghost write_faults: { Self → ℕ };

    /// The whole file, of at most `limit` bytes.
    fn read_file(&mut self, alloc: Global, name: &str, limit: u64) -> Result<Vec<u8>, ReadRefusal>
        ensures ok { IfOk result (λ bytes. MayHold (content self.old) name.now bytes.items) }
        ensures within { IfOk result (λ bytes. length bytes.items ≤ limit) }
        ensures missing { IsErrOf result ReadRefusal.Missing → Lacks (content self.old) name.now }
        ensures large { IsErrOf result ReadRefusal.TooLarge → IfSome (file_at (content self.old) name.now) (λ file. IsSomeAnd file (λ bytes. limit < length bytes)) }
        ensures failed { IsErrOf result ReadRefusal.Failed → Rose (read_faults self.old) (read_faults self.new) }
        ensures uncounted { OnOk result (read_faults self.new ≡ read_faults self.old) }
        ensures uncounted_memory { IsErrOf result ReadRefusal.NoMemory → read_faults self.new ≡ read_faults self.old }
        ensures uncounted_large { IsErrOf result ReadRefusal.TooLarge → read_faults self.new ≡ read_faults self.old }
        ensures uncounted_missing { IsErrOf result ReadRefusal.Missing → read_faults self.new ≡ read_faults self.old }
        ensures reads { read_faults self.old ≤ read_faults self.new }
        ensures writes { write_faults self.new ≡ write_faults self.old }
        ensures files { content self.new ≡ content self.old };

    /// Puts the bytes in the place of the file, or makes it. After `Failed` it has any bytes or none.
    fn write_file(&mut self, name: &str, bytes: &[u8]) -> Result<(), WriteRefusal>
        ensures ok { OnOk result (file_at (content self.new) name.now ≡ option_map (λ _. Some bytes.now) (file_at (content self.old) name.now)) }
        ensures others { (other : List ℕ) → other ≢ name.now → file_at (content self.new) other ≡ file_at (content self.old) other }
        ensures memory { IsErrOf result WriteRefusal.NoMemory → content self.new ≡ content self.old }
        ensures failed { IsErrOf result WriteRefusal.Failed → Rose (write_faults self.old) (write_faults self.new) }
        ensures uncounted { OnOk result (write_faults self.new ≡ write_faults self.old) }
        ensures uncounted_memory { IsErrOf result WriteRefusal.NoMemory → write_faults self.new ≡ write_faults self.old }
        ensures writes { write_faults self.old ≤ write_faults self.new }
        ensures reads { read_faults self.new ≡ read_faults self.old };
}

/// An output of bytes, and a count of faults that only a failure raises. A sink may tell what was written to it.
pub trait Sink {
    /// What was written so far, where the sink tells it.
    ghost written: { Self → Option (List ℕ) };

    /// How often a write has failed.
    ghost faults: { Self → ℕ };

    /// Whether what is written takes memory: only then a write is refused for want of it.
    ghost takes_memory: { Bool };

    /// Takes a first part of the piece, at least one byte unless it is empty, and answers its length.
    fn write(&mut self, piece: &[u8]) -> Result<usize, WriteRefusal>
        ensures count { IfOk result (λ n. n ≤ length piece.now) }
        ensures some { IfOk result (λ n. 0 < length piece.now → 0 < n) }
        ensures ok { IfOk result (λ n. Appends (written self.old) (take n piece.now) (written self.new)) }
        ensures err { OnErr result (written self.new ≡ written self.old) }
        ensures failed { IsErrOf result WriteRefusal.Failed → Rose (faults self.old) (faults self.new) }
        ensures memory { IsErrOf result WriteRefusal.NoMemory → takes_memory ≡ true }
        ensures uncounted { OnOk result (faults self.new ≡ faults self.old) }
        ensures uncounted_memory { IsErrOf result WriteRefusal.NoMemory → faults self.new ≡ faults self.old }
        ensures later { faults self.old ≤ faults self.new };
}
