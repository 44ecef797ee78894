//! Reads several words of a line, each with what stands behind it.

ghost use Rattle.std.specs.Prelude.{◌≡◌, ◌≤◌, ℕ, List, map, IfOk, IfSome};
ghost use Rattle.std.specs.Option.{option_map};
ghost use Rattle.trace_text.specs.Calls.{row_of, call_named, call_numbered};
ghost use Rattle.trace_text.specs.Reading.{left, given, first_word, one, number, long, word, short, small, tid, slots, reply, stop, act, why, end, extra, longs, said, unknown, asked_by, asked_of, kind_at, bytes_at, extra_at, first_at, slots_at, reply_at};

use crate::one_word::{
    bytes_at, cut, extra_at, first_at, kind_at, number_at, reply_at, slots_at, stop_at, tid_at,
};
use crate::rows::{Row, call_named, call_numbered};
use basics::Items;
use marcel_core::End;
use run_trace::{Act, Extra, Label, Why};
use rv_step::Stop;
use slot_space::{NodeNo, SlotNo, Tid};
use std::alloc::{AllocError, Global};

// In each function `rest` is what is left of the line: nothing, or words, each behind a blank.

pub(crate) fn next_word(rest: &[u8]) -> Option<(&[u8], &[u8])>
    ensures { first_word (left 32 rest.now) ≡ option_map (λ p. (p.0.now, left 32 p.1.now)) result }
{
    let Some((_, words)) = rest.split_first() else {
        return None
    };
    Some(cut(b' ', words))
}

#[tactic(auto, unfolding(crate::specs::Reading::one))]
pub(crate) fn number(last: u64, rest: &[u8]) -> Option<(u64, &[u8])>
    ensures value { number last (left 32 rest.now) ≡ option_map given result }
    ensures least { IfSome result (λ p. p.0 ≤ last) }
{
    let Some((word, rest)) = next_word(rest) else {
        return None
    };
    let Some(n) = number_at(last, word) else {
        return None
    };
    Some((n, rest))
}

pub(crate) fn long(rest: &[u8]) -> Option<(u64, &[u8])>
    ensures { long (left 32 rest.now) ≡ option_map given result }
{
    number(u64::MAX, rest)
}

pub(crate) fn word(rest: &[u8]) -> Option<(u32, &[u8])>
    ensures { word (left 32 rest.now) ≡ option_map given result }
{
    let Some((n, rest)) = number(0xffff_ffff, rest) else {
        return None
    };
    Some((n as u32, rest))
}

pub(crate) fn short(rest: &[u8]) -> Option<(u16, &[u8])>
    ensures { short (left 32 rest.now) ≡ option_map given result }
{
    let Some((n, rest)) = number(0xffff, rest) else {
        return None
    };
    Some((n as u16, rest))
}

pub(crate) fn small(rest: &[u8]) -> Option<(u8, &[u8])>
    ensures { small (left 32 rest.now) ≡ option_map given result }
{
    let Some((n, rest)) = number(0xff, rest) else {
        return None
    };
    Some((n as u8, rest))
}

#[tactic(auto, unfolding(crate::specs::Reading::one))]
pub(crate) fn tid(rest: &[u8]) -> Option<(Tid, &[u8])>
    ensures { tid (left 32 rest.now) ≡ option_map given result }
{
    let Some((word, rest)) = next_word(rest) else {
        return None
    };
    let Some(t) = tid_at(word) else { return None };
    Some((t, rest))
}

#[tactic(auto, unfolding(crate::specs::Reading::one))]
pub(crate) fn reply(rest: &[u8]) -> Option<(u64, &[u8])>
    ensures { reply (left 32 rest.now) ≡ option_map given result }
{
    let Some((word, rest)) = next_word(rest) else {
        return None
    };
    let Some(reply) = reply_at(word) else {
        return None
    };
    Some((reply, rest))
}

#[tactic(auto, unfolding(crate::specs::Reading::one))]
pub(crate) fn stop(rest: &[u8]) -> Option<(Stop, &[u8])>
    ensures { stop (left 32 rest.now) ≡ option_map given result }
{
    let Some((word, rest)) = next_word(rest) else {
        return None
    };
    let Some(stop) = stop_at(word) else {
        return None
    };
    Some((stop, rest))
}

#[tactic(auto, unfolding(crate::specs::Reading::one))]
pub(crate) fn first(rest: &[u8]) -> Option<(Option<SlotNo>, &[u8])>
    ensures { one first_at (left 32 rest.now) ≡ option_map given result }
{
    let Some((word, rest)) = next_word(rest) else {
        return None
    };
    let Some(first) = first_at(word) else {
        return None
    };
    Some((first, rest))
}

#[tactic(auto, unfolding(crate::specs::Reading::one))]
pub(crate) fn slots<'a>(
    alloc: Global,
    rest: &'a [u8],
) -> Result<Option<(Items<SlotNo>, &'a [u8])>, AllocError>
    ensures { IfOk result (λ o. slots (left 32 rest.now) ≡ option_map given o) }
{
    let Some((word, rest)) = next_word(rest) else {
        return Ok(None)
    };
    match slots_at(alloc, word) {
        Ok(Some(slots)) => Ok(Some((slots, rest))),
        Ok(None) => Ok(None),
        Err(error) => Err(error),
    }
}

#[tactic(auto, unfolding(crate::specs::Reading::act))]
pub(crate) fn act(rest: &[u8]) -> Option<(Act, &[u8])>
    ensures { act (left 32 rest.now) ≡ option_map given result }
{
    let Some((name, rest)) = next_word(rest) else {
        return None
    };
    if name == b"boot".as_slice() {
        Some((Act::Boot, rest))
    } else if name == b"run".as_slice() {
        let Some((vp, rest)) = small(rest) else {
            return None
        };
        let Some((quantum, rest)) = word(rest) else {
            return None
        };
        Some((Act::Run(vp, quantum), rest))
    } else if name == b"take".as_slice() {
        let Some((from, rest)) = small(rest) else {
            return None
        };
        Some((Act::Take(NodeNo(from)), rest))
    } else if name == b"move".as_slice() {
        let Some((t, rest)) = tid(rest) else {
            return None
        };
        let Some((to, rest)) = small(rest) else {
            return None
        };
        Some((Act::Move(t, NodeNo(to)), rest))
    } else {
        None
    }
}

#[tactic(auto, unfolding(crate::specs::Reading::why))]
pub(crate) fn why(rest: &[u8]) -> Option<(Why, &[u8])>
    ensures { why (left 32 rest.now) ≡ option_map given result }
{
    let Some((name, rest)) = next_word(rest) else {
        return None
    };
    if name == b"main".as_slice() {
        Some((Why::Main, rest))
    } else if name == b"create".as_slice() {
        let Some((by, rest)) = tid(rest) else {
            return None
        };
        Some((Why::Create(by), rest))
    } else if name == b"in".as_slice() {
        let Some((by, rest)) = tid(rest) else {
            return None
        };
        let Some((bubble, rest)) = word(rest) else {
            return None
        };
        Some((Why::Inside(by, bubble), rest))
    } else if name == b"service".as_slice() {
        let Some((by, rest)) = tid(rest) else {
            return None
        };
        let Some((count, rest)) = word(rest) else {
            return None
        };
        Some((Why::Service(by, count), rest))
    } else {
        None
    }
}

#[tactic(auto, unfolding(crate::specs::Reading::end))]
pub(crate) fn end(rest: &[u8]) -> Option<(End, &[u8])>
    ensures { end (left 32 rest.now) ≡ option_map given result }
{
    let Some((name, rest)) = next_word(rest) else {
        return None
    };
    if name == b"exit".as_slice() {
        let Some((value, rest)) = long(rest) else {
            return None
        };
        return Some((End::Exit(value), rest));
    }
    let Some(kind) = kind_at(name) else {
        return None
    };
    let Some((pc, rest)) = long(rest) else {
        return None
    };
    Some((End::Fault { kind, pc }, rest))
}

#[tactic(auto, unfolding(crate::specs::Reading::extra))]
pub(crate) fn extra<'a>(
    alloc: Global,
    rest: &'a [u8],
) -> Result<Option<(Extra, &'a [u8])>, AllocError>
    ensures { IfOk result (λ o. extra (left 32 rest.now) ≡ option_map given o) }
{
    let Some((word, rest)) = next_word(rest) else {
        return Ok(Some((Extra::Nothing, rest)))
    };
    match extra_at(alloc, word) {
        Ok(Some(extra)) => Ok(Some((extra, rest))),
        Ok(None) => Ok(None),
        Err(error) => Err(error),
    }
}

#[tactic(auto, using(crate::proofs::Steps::longs_stop))]
fn longs<'a>(
    alloc: Global,
    count: usize,
    rest: &'a [u8],
) -> Result<Option<(Vec<u64>, &'a [u8])>, AllocError>
    ensures { IfOk result (λ o. longs count (left 32 rest.now) ≡ option_map (λ p. (p.0.items, left 32 p.1.now)) o) }
{
    let mut numbers = Vec::new(alloc);
    let mut rest = rest;
    let mut missing = count;
    while missing > 0 {
        let Some((n, behind)) = long(rest) else {
            return Ok(None)
        };
        numbers.push(n)?;
        rest = behind;
        missing -= 1;
    }
    Ok(Some((numbers, rest)))
}

#[tactic(auto, unfolding(crate::specs::Reading::one))]
fn said<'a>(
    alloc: Global,
    says: bool,
    rest: &'a [u8],
) -> Result<Option<(Items<u8>, &'a [u8])>, AllocError>
    ensures { IfOk result (λ o. said says (left 32 rest.now) ≡ option_map given o) }
{
    if !says {
        return Ok(Some((Items::new(Vec::new(alloc)), rest)));
    }
    let Some((word, rest)) = next_word(rest) else {
        return Ok(None)
    };
    match bytes_at(alloc, word) {
        Ok(Some(bytes)) => Ok(Some((bytes, rest))),
        Ok(None) => Ok(None),
        Err(error) => Err(error),
    }
}

fn unknown(alloc: Global, t: Tid, rest: &[u8]) -> Option<(Label, &[u8])>
    ensures { unknown t (left 32 rest.now) ≡ option_map given result }
{
    let Some((call, rest)) = long(rest) else {
        return None
    };
    match call_numbered(call) {
        Some(_) => None,
        None => Some((
            Label::Asked {
                t,
                call,
                args: Items::new(Vec::new(alloc)),
                bytes: Items::new(Vec::new(alloc)),
            },
            rest,
        )),
    }
}

fn asked_by<'a>(
    alloc: Global,
    t: Tid,
    row: Row,
    rest: &'a [u8],
) -> Result<Option<(Label, &'a [u8])>, AllocError>
    ensures { IfOk result (λ o. asked_by t (row_of row) (left 32 rest.now) ≡ option_map given o) }
{
    let (args, rest) = match longs(alloc, row.arguments, rest) {
        Ok(Some(read)) => read,
        Ok(None) => return Ok(None),
        Err(error) => return Err(error),
    };
    let (bytes, rest) = match said(alloc, row.says, rest) {
        Ok(Some(read)) => read,
        Ok(None) => return Ok(None),
        Err(error) => return Err(error),
    };
    Ok(Some((
        Label::Asked {
            t,
            call: row.number,
            args: Items::new(args),
            bytes,
        },
        rest,
    )))
}

pub(crate) fn asked_of<'a>(
    alloc: Global,
    t: Tid,
    rest: &'a [u8],
) -> Result<Option<(Label, &'a [u8])>, AllocError>
    ensures { IfOk result (λ o. asked_of t (left 32 rest.now) ≡ option_map given o) }
{
    let Some((name, rest)) = next_word(rest) else {
        return Ok(None)
    };
    if name == b"unknown".as_slice() {
        return Ok(unknown(alloc, t, rest));
    }
    match call_named(name) {
        None => Ok(None),
        Some(row) => asked_by(alloc, t, row, rest),
    }
}
