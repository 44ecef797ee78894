//! Numbers of words.

ghost use Rattle.std.specs.Prelude.{◌≡◌};
ghost use Rattle.pm2_picture.specs.Words.{is_digit, number_in};

fn is_digit(byte: u8) -> bool
    ensures { result ≡ is_digit byte }
{
    byte >= b'0' && byte <= b'9'
}

/// The number that a word's digits write, where it is below 2^64.
pub(crate) fn number_in(word: &str) -> Option<u64>
    ensures { result ≡ number_in word.now }
{
    let digits = word.as_bytes();
    if digits.is_empty() {
        return None;
    }
    let mut number = 0u64;
    for digit in digits {
        if !is_digit(*digit) {
            return None;
        }
        let next = number as u128 * 10 + (*digit - b'0') as u128;
        if next > u64::MAX as u128 {
            return None;
        }
        number = next as u64;
    }
    Some(number)
}
