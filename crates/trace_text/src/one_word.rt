//! Reads one word of a line.

ghost use Rattle.std.specs.Prelude.{◌≡◌, ◌∷◌, ◌++◌, ◌*◌, ◌+◌, ◌^◌, ◌<◌, ◌≤◌, ◌&&◌, ◌==◌, not, ℕ, length, map, nat_lt, IfOk, IfSome, OnErr};
ghost use Rattle.std.specs.Option.{option_map};
ghost use Rattle.std.specs.List.{prefix_len};
ghost use Rattle.std.specs.Str.{all_ascii_digits};
ghost use Rattle.std.specs.Str.Parse.{digits_value};
ghost use Rattle.trace_text.specs.Reading.{only_if, parts, left, number_at, tid_in, tid_at, slots_from, slots_at, nibble, pairs_in, bytes_at, reply_at, kind_at, stop_at, first_at, extra_at};

use basics::Items;
use run_trace::Extra;
use rv_step::{FaultKind, Stop};
use slot_space::{NodeNo, SlotNo, Tid};
use std::alloc::{AllocError, Global};

/// How many bytes stand before the first byte `c`.
fn count_before(c: u8, bytes: &[u8]) -> usize
    ensures value { result ≡ prefix_len (λ b. not (b == c)) bytes.now }
    ensures within { result ≤ length bytes.now }
{
    bytes.iter().take_while(|b| **b != c).count()
}

/// What stands before the first byte `c`, and all from it on.
#[tactic(auto, using(crate::proofs::Digits::cut_at))]
pub(crate) fn cut(c: u8, bytes: &[u8]) -> (&[u8], &[u8])
    ensures parts { parts c bytes.now ≡ result.0.now ∷ left c result.1.now }
    ensures whole { bytes.now ≡ result.0.now ++ result.1.now }
{
    bytes.split_at(count_before(c, bytes))
}

fn with_digit(value: u64, digit: u8) -> Option<u64>
    ensures { result ≡ only_if (nat_lt (value * 10 + digit) (2 ^ 64)) (value * 10 + digit) }
{
    match value.checked_mul(10) {
        None => None,
        Some(tens) => tens.checked_add(digit as u64),
    }
}

/// The number of these digits, if each is one and the number has 64 bits.
#[tactic(auto, using(crate::proofs::Digits::too_many))]
fn value_of(digits: &[u8]) -> Option<u64>
    ensures { result ≡ only_if (all_ascii_digits digits.now && nat_lt (digits_value 10 digits.now) (2 ^ 64)) (digits_value 10 digits.now) }
{
    let mut value = 0;
    for digit in digits {
        if !digit.is_ascii_digit() {
            return None;
        }
        match with_digit(value, digit - b'0') {
            None => return None,
            Some(more) => value = more,
        }
    }
    Some(value)
}

/// The number up to `last` that the digits are.
#[tactic(auto, unfolding(crate::specs::Reading::number_at))]
pub(crate) fn number_at(last: u64, digits: &[u8]) -> Option<u64>
    ensures value { result ≡ number_at last digits.now }
    ensures least { IfSome result (λ n. n ≤ last) }
{
    if digits.is_empty() || digits[0] == b'0' && digits.len() != 1 {
        return None;
    }
    let Some(value) = value_of(digits) else {
        return None
    };
    if value <= last { Some(value) } else { None }
}

#[tactic(auto, using(crate::proofs::Digits::three_parts, crate::proofs::Digits::some_parts), unfolding(crate::specs::Reading::tid_at))]
pub(crate) fn tid_at(bytes: &[u8]) -> Option<Tid>
    ensures { result ≡ tid_at bytes.now }
{
    let (home, behind) = cut(b'.', bytes);
    let Some((_, behind)) = behind.split_first() else {
        return None
    };
    let (seq, behind) = cut(b'.', behind);
    if !behind.is_empty() {
        return None;
    }
    let Some(home) = number_at(0xff, home) else {
        return None
    };
    let Some(seq) = number_at(0xffff_ffff, seq) else {
        return None
    };
    Some(Tid {
        home: NodeNo(home as u8),
        seq: seq as u32,
    })
}

fn slots_in(alloc: Global, bytes: &[u8]) -> Result<Option<Vec<SlotNo>>, AllocError>
    ensures { IfOk result (λ o. option_map (λ v. v.items) o ≡ slots_from 0 (parts 44 bytes.now)) }
{
    let mut slots = Vec::new(alloc);
    let mut least = 0;
    let mut rest = bytes;
    let mut more = true;
    while more {
        let (part, behind) = cut(b',', rest);
        let Some(slot) = number_at(0xffff, part) else {
            return Ok(None)
        };
        if slot < least {
            return Ok(None);
        }
        slots.push(SlotNo(slot as u16))?;
        least = slot + 1;
        match behind.split_first() {
            None => more = false,
            Some((_, behind)) => rest = behind,
        }
    }
    Ok(Some(slots))
}

#[tactic(auto, unfolding(crate::specs::Reading::slots_at))]
pub(crate) fn slots_at(alloc: Global, bytes: &[u8]) -> Result<Option<Items<SlotNo>>, AllocError>
    ensures { IfOk result (λ o. o ≡ slots_at bytes.now) }
{
    if bytes == b"-".as_slice() {
        return Ok(Some(Items::new(Vec::new(alloc))));
    }
    match slots_in(alloc, bytes) {
        Ok(Some(slots)) => Ok(Some(Items::new(slots))),
        Ok(None) => Ok(None),
        Err(error) => Err(error),
    }
}

fn nibble(digit: u8) -> Option<u8>
    ensures value { result ≡ nibble digit }
    ensures small { IfSome result (λ n. n < 16) }
{
    match digit {
        b'0'..=b'9' => Some(digit - b'0'),
        b'a'..=b'f' => Some(digit - 87),
        _ => None,
    }
}

fn pairs_in(alloc: Global, digits: &[u8]) -> Result<Option<Vec<u8>>, AllocError>
    ensures { IfOk result (λ o. option_map (λ v. v.items) o ≡ pairs_in digits.now) }
{
    let mut bytes = Vec::new(alloc);
    let mut rest = digits;
    while let Some((high, behind)) = rest.split_first() {
        let Some((low, behind)) = behind.split_first() else {
            return Ok(None)
        };
        let (Some(high), Some(low)) = (nibble(*high), nibble(*low)) else {
            return Ok(None)
        };
        bytes.push(high * 16 + low)?;
        rest = behind;
    }
    Ok(Some(bytes))
}

#[tactic(auto, unfolding(crate::specs::Reading::bytes_at))]
pub(crate) fn bytes_at(alloc: Global, word: &[u8]) -> Result<Option<Items<u8>>, AllocError>
    ensures { IfOk result (λ o. o ≡ bytes_at word.now) }
{
    if word.is_empty() {
        return Ok(None);
    }
    if word == b"-".as_slice() {
        return Ok(Some(Items::new(Vec::new(alloc))));
    }
    match pairs_in(alloc, word) {
        Ok(Some(bytes)) => Ok(Some(Items::new(bytes))),
        Ok(None) => Ok(None),
        Err(error) => Err(error),
    }
}

#[tactic(auto, unfolding(crate::specs::Reading::reply_at))]
pub(crate) fn reply_at(word: &[u8]) -> Option<u64>
    ensures { result ≡ reply_at word.now }
{
    let Some((first, behind)) = word.split_first() else {
        return None
    };
    if *first != b'-' {
        return number_at((1 << 63) - 1, word);
    }
    let Some(magnitude) = number_at(1 << 63, behind) else {
        return None
    };
    if magnitude == 0 {
        return None;
    }
    Some(u64::MAX - magnitude + 1)
}

#[tactic(auto, unfolding(crate::specs::Reading::kind_at))]
pub(crate) fn kind_at(word: &[u8]) -> Option<FaultKind>
    ensures { result ≡ kind_at word.now }
{
    if word == b"illegal".as_slice() {
        Some(FaultKind::Illegal)
    } else if word == b"break".as_slice() {
        Some(FaultKind::Break)
    } else if word == b"misaligned".as_slice() {
        Some(FaultKind::Misaligned)
    } else if word == b"fetch".as_slice() {
        Some(FaultKind::Fetch)
    } else if word == b"load".as_slice() {
        Some(FaultKind::Load)
    } else if word == b"store".as_slice() {
        Some(FaultKind::Store)
    } else {
        None
    }
}

#[tactic(auto, unfolding(crate::specs::Reading::stop_at))]
pub(crate) fn stop_at(word: &[u8]) -> Option<Stop>
    ensures { result ≡ stop_at word.now }
{
    if word == b"quantum".as_slice() {
        Some(Stop::Quantum)
    } else if word == b"call".as_slice() {
        Some(Stop::Call)
    } else {
        kind_at(word).map(Stop::Fault)
    }
}

#[tactic(auto, unfolding(crate::specs::Reading::first_at))]
pub(crate) fn first_at(word: &[u8]) -> Option<Option<SlotNo>>
    ensures { result ≡ first_at word.now }
{
    if word == b"-".as_slice() {
        return Some(None);
    }
    match number_at(0xffff, word) {
        None => None,
        Some(slot) => Some(Some(SlotNo(slot as u16))),
    }
}

#[tactic(auto, unfolding(crate::specs::Reading::extra_at))]
pub(crate) fn extra_at(alloc: Global, word: &[u8]) -> Result<Option<Extra>, AllocError>
    ensures { IfOk result (λ o. o ≡ extra_at word.now) }
{
    let Some((first, behind)) = word.split_first() else {
        return Ok(None)
    };
    if *first != b'x' {
        return Ok(number_at(u64::MAX, word).map(Extra::Second));
    }
    match bytes_at(alloc, behind) {
        Ok(Some(bytes)) => Ok(Some(Extra::Bytes(bytes))),
        Ok(None) => Ok(None),
        Err(error) => Err(error),
    }
}
