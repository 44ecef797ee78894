//! All entries, by stamp and node.

ghost use Rattle.std.specs.Prelude.{◌≡◌, ℕ, List, [], IfOk, reverse, slice_index_or};
ghost use Rattle.std.specs.List.{flat_map};
ghost use Rattle.run_trace.specs.Histories.{IsInOrder, own_entries};
ghost use Rattle.trace_merge.specs.Parts.{AreParts};

use basics::{Items, NoMemory};
use run_trace::Entry;
use std::alloc::Global;

/// All entries of the parts of node 0, node 1 and so on, in the order of stamp and node.
pub fn merge(alloc: Global, parts: Vec<Items<Entry>>) -> Result<Vec<Entry>, NoMemory>
    requires { AreParts 0 parts.items }
    ensures order { IfOk result (λ entries. IsInOrder (reverse entries.items)) }
    ensures own { IfOk result (λ entries. (n : ℕ) → own_entries n (reverse entries.items) ≡ reverse (slice_index_or parts.items n [])) }
{
    let mut entries = join(alloc, parts)?;
    entries.sort_by_key(|entry| (entry.stamp, entry.node.0))?;
    Ok(entries)
}

// The parts, end to end.
fn join(alloc: Global, parts: Vec<Items<Entry>>) -> Result<Vec<Entry>, NoMemory>
    ensures { IfOk result (λ entries. entries.items ≡ flat_map (λ part. part) parts.items) }
{
    let mut entries = Vec::new(alloc);
    for part in parts {
        entries.append(&mut part.into_vec())?;
    }
    Ok(entries)
}
