//! The live blocks as a row that ascends by address. A block is its address and its size.

ghost use Rattle.std.specs.Prelude.{◌≡◌, ℕ, ◌+◌, ◌<◌, ◌≤◌, ◌^◌, false, true, drop, length, slice_index_or, MatchOption};
ghost use Rattle.std.specs.List.{AllWithin};
ghost use Rattle.std.specs.List.Sorted.{IsNonDecreasingBy};
ghost use Rattle.iso_blocks.specs.Heap.{starts_at, IsBlockAt, IsRow};
ghost use Rattle.iso_blocks.specs.Neighbours as beside;

/// How many blocks start before the address.
pub fn starting_before(live: &[(u64, u64)], address: u64) -> usize
    requires { IsNonDecreasingBy (λ (b : ℕ × ℕ). b.0) live.now }
    ensures bound { result ≤ length live.now }
    ensures before { AllWithin (λ b. b.0 < address) live.now 0 result }
    ensures behind { AllWithin (λ b. address ≤ b.0) live.now result (length live.now) }
{
    live.partition_point(|b| b.0 < address)
}

/// Where the block before the one at `k` ends, or 0.
pub fn end_before(live: &[(u64, u64)], k: usize) -> u64
    requires within { k < length live.now }
    requires fits { (b : ℕ × ℕ) (j : ℕ) → j < length live.now → b ≡ slice_index_or live.now j b → b.0 + b.1 < 2 ^ 64 }
    ensures { result ≡ beside.end_before 0 live.now k }
{
    if k == 0 {
        return 0;
    }
    let (address, size) = live[k - 1];
    address + size
}

/// Where the block after the one at `k` starts, or past all addresses.
pub fn start_after(live: &[(u64, u64)], k: usize) -> u64
    requires { k < length live.now }
    ensures { result ≡ beside.start_of (drop (k + 1) live.now) }
{
    if k + 1 < live.len() {
        live[k + 1].0
    } else {
        u64::MAX
    }
}

/// Where the block at the address stands in the row.
pub fn find(live: &[(u64, u64)], address: u64) -> Option<usize>
    requires { IsRow live.now }
    ensures { MatchOption result (starts_at live.now address ≡ false)
        (λ k. (k < length live.now) × (starts_at live.now address ≡ true) × IsBlockAt live.now k address) }
{
    let k = starting_before(live, address);
    if k < live.len() && live[k].0 == address {
        Some(k)
    } else {
        None
    }
}
