//! Lines and words.

ghost use Rattle.std.specs.Prelude.{◌≡◌, ◌==◌, ◌<◌, ◌∷◌, [], length, MatchOption};
ghost use Rattle.std.specs.List.{position_or_len};
ghost use Rattle.std.specs.Str.Lines.{strip_carriage_return};
ghost use Rattle.run_texts.specs.Parts.{parts_of, words_of};

/// Where this byte stands first, or the end.
pub(crate) fn place_of(byte: u8, bytes: &[u8]) -> usize
    ensures { result ≡ position_or_len (λ b. b == byte) bytes.now }
{
    bytes.iter().take_while(|b| **b != byte).count()
}

/// The part before the first such byte, and what stands behind that byte.
pub(crate) fn first_part(end: u8, bytes: &[u8]) -> (&[u8], &[u8])
    requires { 0 < length bytes.now }
    ensures first { parts_of end bytes.now ≡ result.0.now ∷ parts_of end result.1.now }
    ensures falls { length result.1.now < length bytes.now }
{
    let place = place_of(end, bytes);
    if place < bytes.len() {
        (&bytes[..place], &bytes[place + 1..])
    } else {
        (bytes, &[])
    }
}

/// The first word of a line, and what stands behind it.
pub(crate) fn next_word(line: &[u8]) -> Option<(&[u8], &[u8])>
    ensures { MatchOption result (words_of line.now ≡ []) (λ x. words_of line.now ≡ x.0.now ∷ words_of x.1.now) }
{
    let mut rest = line;
    while !rest.is_empty() {
        let (part, after) = first_part(b' ', rest);
        if !part.is_empty() {
            return Some((part, after));
        }
        rest = after;
    }
    None
}

/// A line without the one carriage return at its end.
pub(crate) fn without_carriage_return(line: &[u8]) -> &[u8]
    ensures { result.now ≡ strip_carriage_return line.now }
{
    if !line.is_empty() && line[line.len() - 1] == b'\r' {
        &line[..line.len() - 1]
    } else {
        line
    }
}
