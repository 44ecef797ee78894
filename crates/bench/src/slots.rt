//! The lowest run of so many slots of a set: KIND is full, empty, alternating, random, dense or short, COUNT the slots asked for.
//! The number is the sum of the answers.

ghost use Rattle.std.specs.Prelude.{◌<◌};

use anyhow::{Result, bail};
use slot_space::{SlotNo, SlotSet};

/// The set of this name.
fn chosen(name: &str) -> Option<SlotSet> {
    let mut set = SlotSet::empty();
    let mut word = 1u32;
    for s in 0..4096 {
        word = word.wrapping_mul(1664525).wrapping_add(1013904223);
        let takes = match name {
            "full" => true,
            "empty" => false,
            "alternating" => s % 2 == 0,
            "random" => (word >> 16) % 2 == 0,
            "dense" => (word >> 16) % 10 != 0,
            "short" => s % 64 != 0 && s % 64 != 63,
            _ => return None,
        };
        if takes {
            set.insert(SlotNo(s));
        }
    }
    Some(set)
}

/// The sum of the answers. The last slot goes and comes, so that no answer stands for the next.
fn asked(mut set: SlotSet, count: u16, rounds: u32) -> u64
    requires { 0 < count }
{
    let last = SlotNo(4095);
    let mut sum = 0u64;
    for round in 0..rounds {
        if round % 2 == 0 {
            set.remove(last);
        } else {
            set.insert(last);
        }
        let start = match set.lowest_run(count) {
            Some(s) => s.0,
            None => 4096,
        };
        sum = sum.wrapping_add(start as u64);
    }
    sum
}

pub fn measured(kind: &str, count: u32, rounds: u32) -> Result<u64> {
    let count = count.clamp(1, 4096) as u16;
    match chosen(kind) {
        Some(set) => Ok(asked(set, count, rounds)),
        None => bail!("KIND is full, empty, alternating, random, dense or short"),
    }
}
