//! The free bytes of a thread's heap as holes, ascending and merged where they touch.
//! A hole is its first byte's address and the address after its last byte.

ghost use Rattle.std.specs.Prelude.{◌≡◌, ℕ, ◌+◌, ◌-◌, ◌<◌, ◌≤◌, ◌++◌, nat_le, length, position, take, drop, vec_len, vec_capacity, slice_index_or};
ghost use Rattle.std.specs.List.{AllWithin};
ghost use Rattle.iso_blocks.specs.Holes.{StandApart, AreFree, hole, cut, merged, join};

/// The start of the lowest hole of at least `size` bytes.
pub fn first_fit(holes: &[(u64, u64)], size: u64) -> Option<usize>
    ensures { result ≡ position (λ h. nat_le size (h.1 - h.0)) holes.now }
{
    holes.iter().position(|h| h.1.saturating_sub(h.0) >= size)
}

/// How many holes end before the limit.
fn ending_before(holes: &[(u64, u64)], limit: u64) -> usize
    requires { StandApart 0 holes.now }
    ensures bound { result ≤ length holes.now }
    ensures before { AllWithin (λ h. h.1 < limit) holes.now 0 result }
    ensures behind { AllWithin (λ h. limit ≤ h.1) holes.now result (length holes.now) }
{
    holes.partition_point(|h| h.1 < limit)
}

/// Makes the hole at `k` end at `end`, and merges it with the next one where they touch.
fn extend(holes: &mut Vec<(u64, u64)>, k: usize, end: u64)
    requires { k < vec_len holes.old }
    ensures items { (d : ℕ × ℕ) → holes.new.items ≡ take k holes.old.items ++ merged (slice_index_or holes.old.items k d).0 end (drop (k + 1) holes.old.items) }
    ensures capacity { vec_capacity holes.new ≡ vec_capacity holes.old }
{
    let start = holes[k].0;
    let next = k + 1;
    if next < holes.len() && holes[next].0 == end {
        let past = holes.remove(next).1;
        holes[k] = (start, past);
    } else {
        holes[k] = (start, end);
    }
}

/// Puts a hole before the one at `k`, and merges it with that one where they touch.
fn put(holes: &mut Vec<(u64, u64)>, k: usize, from: u64, end: u64)
    requires within { k ≤ vec_len holes.old }
    requires room { vec_len holes.old < vec_capacity holes.old }
    ensures items { holes.new.items ≡ take k holes.old.items ++ merged from end (drop k holes.old.items) }
    ensures capacity { vec_capacity holes.old ≤ vec_capacity holes.new }
{
    if k < holes.len() && holes[k].0 == end {
        let past = holes[k].1;
        holes[k] = (from, past);
    } else {
        let _ = holes.insert(k, (from, end));
    }
}

/// Makes the bytes from `from` to before `end` free.
pub fn release(holes: &mut Vec<(u64, u64)>, from: u64, end: u64)
    requires apart { StandApart 0 holes.old.items }
    requires room { vec_len holes.old < vec_capacity holes.old }
    ensures items { holes.new.items ≡ join from end holes.old.items }
    ensures capacity { vec_capacity holes.old ≤ vec_capacity holes.new }
{
    let k = ending_before(holes, from);
    if k < holes.len() && holes[k].1 == from {
        extend(holes, k, end);
    } else {
        put(holes, k, from, end);
    }
}

/// Takes some bytes out of the hole at `k`.
fn split(holes: &mut Vec<(u64, u64)>, k: usize, from: u64, end: u64)
    requires within { k < vec_len holes.old }
    requires room { vec_len holes.old < vec_capacity holes.old }
    ensures items { (h : ℕ × ℕ) → h ≡ slice_index_or holes.old.items k h
        → holes.new.items ≡ take k holes.old.items ++ (hole h.0 from ++ (hole end h.1 ++ drop (k + 1) holes.old.items)) }
    ensures capacity { vec_capacity holes.old ≤ vec_capacity holes.new }
{
    let (start, past) = holes[k];
    if start < from {
        holes[k] = (start, from);
        if end < past {
            let _ = holes.insert(k + 1, (end, past));
        }
    } else if end < past {
        holes[k] = (end, past);
    } else {
        let _ = holes.remove(k);
    }
}

/// Takes the bytes from `from` to before `end`, which are all free.
pub fn occupy(holes: &mut Vec<(u64, u64)>, from: u64, end: u64)
    requires apart { StandApart 0 holes.old.items }
    requires some { from < end }
    requires free { AreFree holes.old.items from end }
    requires room { vec_len holes.old < vec_capacity holes.old }
    ensures items { holes.new.items ≡ cut from end holes.old.items }
    ensures capacity { vec_capacity holes.old ≤ vec_capacity holes.new }
{
    let k = ending_before(holes, from + 1);
    split(holes, k, from, end);
}
