//! Numbers.

ghost use Rattle.std.specs.Prelude.{◌≡◌, ◌≤◌, ◌<◌, IfSome, length, true};
ghost use Rattle.std.specs.List.{list_all};
ghost use Rattle.std.specs.Str.Parse.{digits_value};
ghost use Rattle.run_texts.specs.Parts.{is_digit, number_in};

fn are_digits(bytes: &[u8]) -> bool
    ensures { result ≡ list_all is_digit bytes.now }
{
    bytes.iter().all(|b| *b >= b'0' && *b <= b'9')
}

/// The number that at most ten digits write.
fn value_of(digits: &[u8]) -> u64
    requires few { length digits.now ≤ 10 }
    requires digits { list_all is_digit digits.now ≡ true }
    ensures { result ≡ digits_value 10 digits.now }
{
    let mut value: u64 = 0;
    for digit in digits {
        value = value * 10 + (*digit - b'0') as u64;
    }
    value
}

/// The number that one to ten digits write, where it is at least `low` and less than `below`.
#[tactic(auto, unfolding(crate::specs::Parts::number_in))]
pub(crate) fn number_in(low: u64, below: u64, text: &[u8]) -> Option<u64>
    ensures value { result ≡ number_in low below text.now }
    ensures range { IfSome result (λ n. (low ≤ n) × (n < below)) }
{
    if text.is_empty() || text.len() > 10 || !are_digits(text) {
        return None;
    }
    let n = value_of(text);
    if low <= n && n < below { Some(n) } else { None }
}
