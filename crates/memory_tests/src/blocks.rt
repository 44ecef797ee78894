//! That each call which may refuse for want of memory succeeds where there is some, and that blocks go to other threads.

use basics::NoMemory;
use iso_blocks::Blocks;
use raw_slots::{Pool, SlotMem};
use slot_space::{SLOT_SIZE, SLOTS_START, SlotNo, SlotSet};
use std::alloc::Global;
use std::test::Fail;
use std::thread;
use std::thread::Threads;

/// A set lists its members, ascending.
fn members_are_listed(alloc: Global) -> Result<bool, NoMemory> {
    let members = SlotSet::of(&[SlotNo(70), SlotNo(3)]).members(alloc)?;
    Ok(members.as_slice() == [SlotNo(3), SlotNo(70)].as_slice())
}

/// A pool gives a block that was spare, and then a new one.
fn blocks_are_taken(alloc: Global) -> Result<bool, NoMemory> {
    let mut pool = Pool::new(alloc);
    pool.reserve(1)?;
    let _spare = pool.take()?;
    let new = pool.take()?;
    Ok(pool.spare() == 0 && new.bytes().len() == SLOT_SIZE as usize)
}

/// A block is placed at the first address of the one slot.
fn a_block_is_placed(alloc: Global) -> Result<bool, NoMemory> {
    let mut blocks = Blocks::new(alloc);
    blocks.add_slots(SlotNo(2), 1)?;
    Ok(blocks.place(100)? == Some(SLOTS_START + 2 * SLOT_SIZE))
}

#[test]
fn calls_succeed_where_there_is_memory(rt: HostRuntime) -> Result<(), Fail> {
    assert!(rt; members_are_listed(rt.alloc())?);
    assert!(rt; blocks_are_taken(rt.alloc())?);
    assert!(rt; a_block_is_placed(rt.alloc())?);
    Ok(())
}

/// A pool and a block.
#[derive(Drop)]
struct Pair {
    pool: Pool,
    block: SlotMem,
}

/// Two pairs of a pool with no spare block and a block of zeros.
fn two_pairs(alloc: Global) -> Result<Vec<Pair>, NoMemory> {
    let mut pairs = Vec::new(alloc);
    for _ in 0..2 {
        let mut pool = Pool::new(alloc);
        let block = pool.take()?;
        pairs.push(Pair { pool, block })?;
    }
    Ok(pairs)
}

/// Each pool makes blocks and each block is filled in a thread of its own.
fn work_beside<R: Threads + Sync>(rt: &R, pairs: &mut [Pair]) {
    thread::for_each_mut(
        rt,
        pairs,
        4,
        &|_, pair: &mut Pair| {
            let _ = pair.pool.reserve(3);
            pair.block.bytes_mut().fill(1);
        },
    );
}

#[test]
fn blocks_and_pools_go_to_other_threads(rt: HostRuntime) -> Result<(), Fail> {
    let mut pairs = two_pairs(rt.alloc())?;
    work_beside(&rt, &mut pairs);
    assert!(rt;
        pairs.iter().all(|pair| pair.pool.spare() == 3
            && pair.block.bytes().iter().all(|byte| *byte == 1))
    );
    Ok(())
}
