//! Options whose values are numbers.

ghost use Rattle.std.specs.Prelude.{◌≡◌, ◌≤◌, IfSome, map};
ghost use Rattle.std.specs.Option.{option_map};
ghost use Rattle.std.specs.List.{list_all};
ghost use Rattle.words.specs.Words.{is_name};
ghost use Rattle.settings.specs.Numbers.{at_most_one, is_digit, number_of};

/// An option's name, the least and the greatest number that it takes, and the number that stands where it isn't given.
#[derive(Clone, Copy)]
pub(crate) struct NumberOption {
    pub(crate) name: &'static str,
    pub(crate) low: u64,
    pub(crate) high: u64,
    pub(crate) usual: u64,
    ghost low_usual: { low ≤ usual },
    ghost usual_high: { usual ≤ high },
}

/// Whether a word isn't empty and doesn't begin with `-`.
pub(crate) fn is_name(word: &str) -> bool
    ensures { result ≡ is_name word.now }
{
    let bytes = word.as_bytes();
    bytes.len() > 0 && bytes[0] != b'-'
}

/// The value, if there is one. None where there are two, or where it is no name.
pub(crate) fn at_most_one<'a>(values: &[&'a str]) -> Option<Option<&'a str>>
    ensures { option_map (λ o. option_map (λ s. s.now) o) result ≡ at_most_one (map (λ s. s.now) values.now) }
{
    match values {
        [] => Some(None),
        [value] => {
            if is_name(value) {
                Some(Some(*value))
            } else {
                None
            }
        }
        _ => None,
    }
}

fn are_digits(bytes: &[u8]) -> bool
    ensures { result ≡ list_all is_digit bytes.now }
{
    bytes.iter().all(|b| *b >= b'0' && *b <= b'9')
}

/// The number that a text of one to twenty digits writes, within these bounds.
pub(crate) fn number_of(text: &str, low: u64, high: u64) -> Option<u64>
    ensures value { result ≡ number_of low high text.now }
    ensures bounds { IfSome result (λ n. (low ≤ n) × (n ≤ high)) }
{
    let bytes = text.as_bytes();
    if bytes.len() < 1 || bytes.len() > 20 || !are_digits(bytes) {
        return None;
    }
    match text.parse::<u64>() {
        Ok(n) => { if low <= n && n <= high { Some(n) } else { None } }
        Err(_) => None,
    }
}
