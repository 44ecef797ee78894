//! One word of 64 bits.

ghost use Rattle.std.specs.Prelude.{◌≡◌, ◌≢◌, ℕ, ◌+◌, ◌<◌, ◌≤◌, MatchOption};
ghost use Rattle.std.specs.Int.{bit_at};
ghost use Rattle.slot_space.specs.Words.{AreOnes, NoOnes};

/// The place of the lowest bit that is set.
pub(crate) fn lowest(word: u64) -> usize
    requires { word ≢ 0 }
    ensures within { result < 64 }
    ensures set { bit_at word result ≡ 1 }
    ensures below { (k : ℕ) → k < result → bit_at word k ≡ 0 }
{
    word.trailing_zeros() as usize
}

/// The place of the highest bit that is set.
pub(crate) fn highest(word: u64) -> usize
    requires { word ≢ 0 }
    ensures within { result < 64 }
    ensures set { bit_at word result ≡ 1 }
    ensures above { (k : ℕ) → result < k → bit_at word k ≡ 0 }
{
    word.ilog2() as usize
}

/// A word with a one at each place where `count` consecutive ones of the other begin.
fn starts_of_ones(word: u64, count: usize) -> u64
    requires some { 0 < count }
    requires few { count ≤ 64 }
    ensures only { (k : ℕ) → bit_at result k ≡ 1 → AreOnes word k count }
    ensures all { (k : ℕ) → AreOnes word k count → bit_at result k ≡ 1 }
{
    let mut starts = word;
    let mut known = 1;
    while known < count && starts != 0 {
        let step = known.min(count - known);
        starts &= starts >> step;
        known += step;
    }
    starts
}

/// The lowest place where `count` consecutive ones begin.
pub(crate) fn lowest_ones(word: u64, count: usize) -> Option<usize>
    requires some { 0 < count }
    requires few { count ≤ 64 }
    ensures { MatchOption result (NoOnes word count 64) (λ k. (k < 64) × AreOnes word k count × NoOnes word count k) }
{
    let starts = starts_of_ones(word, count);
    if starts == 0 {
        None
    } else {
        Some(lowest(starts))
    }
}
