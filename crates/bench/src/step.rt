//! A guest's loop: COUNT is the quantum, ROUNDS the number of runs, and KIND any word. The number is what a0 is then.

use anyhow::Result;
use basics::Items;
use raw_slots::Pool;
use rv_inst::Image;
use rv_step::{Hart, Stop};
use slot_space::SlotNo;
use std::alloc::Global;

/// The stub, and the loop of `bench/loop.s` from 0x10008 on.
const WORDS: [u32; 14] = [
    0x0010_0893,
    0x0000_0073,
    0x02fa_f2b7,
    0x0802_829b,
    0x0000_0513,
    0xff01_0113,
    0x00a1_3023,
    0x0001_3303,
    0x0053_0533,
    0x0055_4513,
    0xfff2_8293,
    0xfe02_96e3,
    0x0010_0893,
    0x0000_0073,
];

const MAIN: u64 = 0x1_0008;

const STACK_END: u64 = 0x1_0001_0000;

fn image(alloc: Global) -> Result<Image> {
    let mut bytes = Vec::new(alloc);
    for word in WORDS {
        bytes.extend_from_slice(&word.to_le_bytes())?;
    }
    Ok(Image {
        bytes: Items::new(bytes),
        main: MAIN,
        services: Items::new(Vec::new(alloc)),
    })
}

pub fn measured(alloc: Global, quantum: u32, runs: u32) -> Result<u64> {
    let image = image(alloc)?;
    let mut hart = Hart::birth(alloc, MAIN, 0, 0, STACK_END);
    hart.mem.make_room(1)?;
    hart.mem.grant(SlotNo(0), Pool::new(alloc).take()?);
    for _ in 0..runs {
        if hart.run(&image, quantum).stop != Stop::Quantum {
            break;
        }
    }
    Ok(hart.regs[10])
}
