//! Writing a whole piece to a sink that may take part of it.

ghost use Rattle.std.specs.Prelude.{◌≡◌, ◌≤◌, true, OnOk, OnErr, IsErrOf};
ghost use Rattle.outside.specs.Outside.{Rose, Appends, AppendsPrefix};

use crate::outside::{Sink, WriteRefusal};

/// Writes the piece. After an error a first part of it was written.
pub fn write_piece<K: Sink>(out: &mut K, piece: &[u8]) -> Result<(), WriteRefusal>
    ensures ok { OnOk result (Appends (K.written out.old) piece.now (K.written out.new)) }
    ensures err { OnErr result (AppendsPrefix (K.written out.old) piece.now (K.written out.new)) }
    ensures failed { IsErrOf result WriteRefusal.Failed → Rose (K.faults out.old) (K.faults out.new) }
    ensures memory { IsErrOf result WriteRefusal.NoMemory → K.takes_memory ≡ true }
    ensures uncounted { OnOk result (K.faults out.new ≡ K.faults out.old) }
    ensures uncounted_memory { IsErrOf result WriteRefusal.NoMemory → K.faults out.new ≡ K.faults out.old }
    ensures later { K.faults out.old ≤ K.faults out.new }
{
    let mut done = 0;
    while done < piece.len() {
        done += out.write(&piece[done..])?;
    }
    Ok(())
}
