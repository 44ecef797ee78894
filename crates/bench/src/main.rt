//! What the scripts in `bench/` measure: `bench WHAT KIND COUNT ROUNDS` does one thing so many times over, and prints a number
//! that comes of it. What the words mean stands in the module of WHAT. With no words, one short round of each is done.
#![tactic(auto)]

mod blocks;
mod packing;
mod slots;
mod step;
mod texts;

use anyhow::{Context, Result, bail};
use std::alloc::Global;
use std::env;

const USAGE: &str = "bench step|slots|blocks|packing|texts KIND COUNT ROUNDS";

/// One short round of each.
const SHORT: [(&str, &str, u32, u32); 5] = [
    ("step", "loop", 1000, 200),
    ("slots", "random", 4, 64),
    ("blocks", "packed", 1000, 64),
    ("packing", "pack", 2, 3),
    ("texts", "read", 2, 1),
];

fn measured(alloc: Global, what: &str, kind: &str, count: u32, rounds: u32) -> Result<u64> {
    match what {
        "step" => step::measured(alloc, count, rounds),
        "slots" => slots::measured(kind, count, rounds),
        "blocks" => blocks::measured(alloc, kind, count, rounds),
        "packing" => packing::measured(alloc, kind, count, rounds),
        "texts" => texts::measured(alloc, kind, count, rounds),
        _ => bail!("{USAGE}"),
    }
}

fn number(word: Option<String>) -> Result<u32> {
    let word = word.context(USAGE)?;
    let number = word.as_str().parse::<u32>().context("a number")?;
    Ok(number)
}

fn main(rt: HostRuntime) -> Result<()> {
    let mut words = env::args(&rt)?.skip(1);
    let Some(what) = words.next() else {
        for (what, kind, count, rounds) in SHORT {
            let sum = measured(rt.alloc(), what, kind, count, rounds)?;
            println!(rt; "{what}: {sum}")?;
        }
        return Ok(());
    };
    let kind = words.next().context(USAGE)?;
    let count = number(words.next())?;
    let rounds = number(words.next())?;
    let sum = measured(rt.alloc(), what.as_str(), kind.as_str(), count, rounds)?;
    println!(rt; "{sum}")?;
    Ok(())
}
