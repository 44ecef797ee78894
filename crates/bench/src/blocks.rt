//! A block is freed and one of the same size placed: KIND is packed (no hole) or sparse (a hole of 16 bytes behind each block of
//! 16), COUNT the live blocks. The number is the sum of the addresses.

use anyhow::{Result, bail};
use basics::NoMemory;
use iso_blocks::Blocks;
use slot_space::SlotNo;
use std::alloc::Global;

/// The first address of slot 0.
const FIRST: u64 = 0x1_0000_0000;

/// So many live blocks, with a hole behind each where they are sparse.
fn filled(alloc: Global, live: u32, sparse: bool) -> Result<Blocks, NoMemory> {
    let mut blocks = Blocks::new(alloc);
    blocks.add_slots(SlotNo(0), 512)?;
    let placed = if sparse { 2 * live as u64 } else { live as u64 };
    for _ in 0..placed {
        let _address = blocks.place(16)?;
    }
    if sparse {
        for k in 0..live {
            let _slots = blocks.free(FIRST + 32 * k as u64 + 16);
        }
    }
    Ok(blocks)
}

/// Frees blocks here and there, and places each again: the sum of the addresses.
fn packed(blocks: &mut Blocks, live: u32, rounds: u32) -> Result<u64, NoMemory> {
    let mut sum = 0u64;
    let mut word = 1u32;
    for _ in 0..rounds {
        word = word.wrapping_mul(1664525).wrapping_add(1013904223);
        let k = (word as u64 * live as u64) >> 32;
        let _slots = blocks.free(FIRST + 16 * k);
        sum = sum.wrapping_add(blocks.place(16)?.unwrap_or(0));
    }
    Ok(sum)
}

/// Places a block behind all the holes, and frees it: the sum of the addresses.
fn sparse(blocks: &mut Blocks, rounds: u32) -> Result<u64, NoMemory> {
    let mut sum = 0u64;
    for _ in 0..rounds {
        let address = blocks.place(32)?.unwrap_or(0);
        let _slots = blocks.free(address);
        sum = sum.wrapping_add(address);
    }
    Ok(sum)
}

pub fn measured(alloc: Global, kind: &str, live: u32, rounds: u32) -> Result<u64> {
    let sum = match kind {
        "packed" => packed(&mut filled(alloc, live, false)?, live, rounds)?,
        "sparse" => sparse(&mut filled(alloc, live, true)?, rounds)?,
        _ => bail!("KIND is packed or sparse"),
    };
    Ok(sum)
}
