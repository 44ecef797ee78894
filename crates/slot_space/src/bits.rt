//! Sets of small numbers as the bits of a row of words.

ghost use Rattle.std.specs.Prelude.{◌≡◌, ℕ, ◌+◌, ◌*◌, ◌^◌, ◌<◌, ◌≤◌, Bool, true, false, length, if◌then◌else◌, ◌==◌, MatchOption};
ghost use Rattle.slot_space.specs.Limits.{slot_limit};
ghost use Rattle.slot_space.specs.Sets.{has, run, lowest_run};
ghost use Rattle.slot_space.specs.Words.{bit_of, AreWords, AreSlotWords, IsFirstFrom, HasCommon, SearchedTo, IsStep};

use crate::word::{highest, lowest, lowest_ones};

/// Whether bit s is set.
pub(crate) fn is_set(words: &[u64], s: usize) -> bool
    requires { s < 64 * length words.now }
    ensures { result ≡ bit_of words.now s }
{
    (words[s / 64] >> (s % 64)) & 1 == 1
}

/// Sets bit s.
pub(crate) fn set_bit(words: &mut [u64], s: usize)
    requires within { s < 64 * length words.old }
    requires words { AreWords words.old }
    ensures bits { (k : ℕ) → bit_of words.new k ≡ (if s == k then true else bit_of words.old k) }
    ensures words { AreWords words.new }
{
    let word = words[s / 64];
    words[s / 64] = word | 1 << (s % 64);
}

/// Clears bit s.
pub(crate) fn clear_bit(words: &mut [u64], s: usize)
    requires within { s < 64 * length words.old }
    requires words { AreWords words.old }
    ensures bits { (k : ℕ) → bit_of words.new k ≡ (if s == k then false else bit_of words.old k) }
    ensures words { AreWords words.new }
{
    let word = words[s / 64];
    words[s / 64] = word & !(1 << (s % 64));
}

/// Sets bit s, or clears it.
fn write_bit(words: &mut [u64], s: usize, bit: bool)
    requires within { s < 64 * length words.old }
    requires words { AreWords words.old }
    ensures bits { (k : ℕ) → bit_of words.new k ≡ (if s == k then bit else bit_of words.old k) }
    ensures words { AreWords words.new }
{
    if bit {
        set_bit(words, s);
    } else {
        clear_bit(words, s);
    }
}

/// Sets the bits of the other row too.
pub(crate) fn set_all(words: &mut [u64], others: &[u64])
    requires long { length others.now ≡ length words.old }
    requires words { AreWords words.old }
    ensures bits { (k : ℕ) → bit_of words.new k ≡ (if bit_of others.now k then true else bit_of words.old k) }
    ensures words { AreWords words.new }
{
    for i in 0..words.len() {
        words[i] |= others[i];
    }
}

/// Clears the bits of the other row.
pub(crate) fn clear_all(words: &mut [u64], others: &[u64])
    requires long { length others.now ≡ length words.old }
    requires words { AreWords words.old }
    ensures bits { (k : ℕ) → bit_of words.new k ≡ (if bit_of others.now k then false else bit_of words.old k) }
    ensures words { AreWords words.new }
{
    for i in 0..words.len() {
        words[i] &= !others[i];
    }
}

/// Makes `count` bits from `first` on ones, or zeros.
pub(crate) fn write_run(words: &mut [u64], first: usize, count: usize, bit: bool)
    requires within { first + count ≤ 64 * length words.old }
    requires small { first + count < 2 ^ 64 }
    requires words { AreWords words.old }
    ensures bits { (k : ℕ) → bit_of words.new k ≡ (if has k (run first count) then bit else bit_of words.old k) }
    ensures words { AreWords words.new }
{
    for s in first..first + count {
        write_bit(words, s, bit);
    }
}

/// Whether some bit is set in both rows.
pub(crate) fn have_common(words: &[u64], others: &[u64]) -> bool
    requires long { length others.now ≡ length words.now }
    ensures { HasCommon (bit_of words.now) (bit_of others.now) result }
{
    for i in 0..words.len() {
        if words[i] & others[i] != 0 {
            return true;
        }
    }
    false
}

/// The first bit from `from` on that is set.
pub(crate) fn first_from(words: &[u64], from: usize) -> Option<usize>
    requires { AreSlotWords words.now }
    ensures { IsFirstFrom (bit_of words.now) from result }
{
    let first = from / 64;
    if first >= words.len() {
        return None;
    }
    let rest = words[first] >> (from % 64);
    if rest != 0 {
        return Some(from + lowest(rest));
    }
    for i in first + 1..words.len() {
        if words[i] != 0 {
            return Some(64 * i + lowest(words[i]));
        }
    }
    None
}

/// What is known of the lowest run after one more word.
enum Step {
    /// It starts here.
    Found(usize),

    /// It doesn't start below this place, and all bits read from there on are set.
    From(usize),
}

/// Goes over word i, where it is known that no run starts below `start`, and that all bits from there to this word are set.
fn step_over(words: &[u64], i: usize, start: usize, count: usize) -> Step
    requires words { AreSlotWords words.now }
    requires within { i < 64 }
    requires some { 0 < count }
    requires small { count < 2 ^ 16 }
    requires so_far { SearchedTo (bit_of words.now) count (64 * i) start }
    ensures { IsStep (bit_of words.now) count (64 * i + 64) result }
{
    let base = 64 * i;
    let word = words[i];
    let zeros = !word;
    if zeros == 0 {
        return if base + 64 < start + count {
            Step::From(start)
        } else {
            Step::Found(start)
        };
    }
    let low = lowest(zeros);
    let high = highest(zeros);
    if start + count <= base + low {
        return Step::Found(start);
    }
    if count < 64 {
        if let Some(place) = lowest_ones(word, count) {
            return Step::Found(base + place);
        }
    }
    Step::From(base + high + 1)
}

/// The lowest place where `count` consecutive set bits begin. Each word is read once.
pub(crate) fn lowest_run(words: &[u64], count: usize) -> Option<usize>
    requires words { AreSlotWords words.now }
    requires some { 0 < count }
    requires small { count < 2 ^ 16 }
    ensures { result ≡ lowest_run (bit_of words.now) count slot_limit }
{
    let mut start = 0;
    for i in 0..64 {
        match step_over(words, i, start, count) {
            Step::Found(place) => return Some(place),
            Step::From(next) => start = next,
        }
    }
    None
}
