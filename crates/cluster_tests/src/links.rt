//! Links whose ends are in two threads, and a ring that was full.

ghost use Rattle.std.specs.Prelude.{◌≡◌, ◌<◌, length, vec_len, IfOk, OnOk};
ghost use Rattle.wires.specs.Ends.{width};
ghost use Rattle.wires.specs.Wires.{AreWired, StaysWired};

use basics::NoMemory;
use slot_space::NodeNo;
use std::alloc::{AllocError, Global};
use std::test::Fail;
use std::thread;
use std::thread::Threads;
use wires::{Ends, Wires, look_all, settle_all};

// The ends of two nodes; node 0 has sent the numbers below 100 to node 1, of which its ring holds 64.
fn sent(alloc: Global) -> Result<Vec<Ends<u32>>, NoMemory>
    ensures { IfOk result (λ nodes. (vec_len nodes ≡ 2) × AreWired nodes.items) }
{
    let mut nodes = Wires::new(alloc, 2)?.ends()?;
    send_all(nodes.as_mut_slice())?;
    Ok(nodes)
}

fn send_all(nodes: &mut [Ends<u32>]) -> Result<(), NoMemory>
    requires places { 1 < length nodes.old }
    requires wired { AreWired nodes.old }
    ensures { OnOk result (AreWired nodes.new) }
{
    for n in 0..100 {
        send(nodes, n)?;
    }
    flush(nodes);
    Ok(())
}

fn send(nodes: &mut [Ends<u32>], packet: u32) -> Result<(), NoMemory>
    requires places { 1 < length nodes.old }
    requires wired { AreWired nodes.old }
    ensures { OnOk result (AreWired nodes.new) }
{
    let ends = &mut nodes[0];
    ends.reserve(NodeNo(1), 1)?;
    ends.send(NodeNo(1), packet);
    Ok(())
}

fn flush(nodes: &mut [Ends<u32>])
    requires places { 1 < length nodes.old }
    requires wired { AreWired nodes.old }
    ensures { AreWired nodes.new }
{
    nodes[0].flush();
}

// The next packet that node 0 knows of node 1.
fn next(nodes: &mut [Ends<u32>]) -> Option<u32>
    requires places { 1 < length nodes.old }
    requires wired { AreWired nodes.old }
    ensures { AreWired nodes.new }
{
    let ends = &mut nodes[0];
    if ends.known(NodeNo(1)) {
        ends.take(NodeNo(1))
    } else {
        None
    }
}

// Whether node 0 knows exactly these numbers of node 1, in their order. It takes them.
fn gives(nodes: &mut [Ends<u32>], first: u32, end: u32) -> bool
    requires places { 1 < length nodes.old }
    requires wired { AreWired nodes.old }
    ensures { AreWired nodes.new }
{
    for n in first..end {
        if next(nodes) != Some(n) {
            return false;
        }
    }
    next(nodes).is_none()
}

// The next packet that the ring of node 0 shows node 1, known or not.
fn next_shown(nodes: &mut [Ends<u32>]) -> Option<u32>
    requires places { 1 < length nodes.old }
    requires wired { AreWired nodes.old }
    ensures { AreWired nodes.new }
{
    let ends = &mut nodes[1];
    ends.take(NodeNo(0))
}

// Whether the ring of node 0 shows node 1 exactly these numbers, in their order. It takes them.
fn shows(nodes: &mut [Ends<u32>], first: u32, end: u32) -> bool
    requires places { 1 < length nodes.old }
    requires wired { AreWired nodes.old }
    ensures { AreWired nodes.new }
{
    for n in first..end {
        if next_shown(nodes) != Some(n) {
            return false;
        }
    }
    next_shown(nodes).is_none()
}

// Sends back a packet of node 0, if its ring shows one, plus 1000.
#[tactic(auto, using(wires::proofs::Lemmas::stays_trans))]
fn answer_one(ends: &mut Ends<u32>) -> Result<(), NoMemory>
    requires { 0 < width ends.old }
    ensures wired { StaysWired ends.old ends.new }
    ensures width { width ends.new ≡ width ends.old }
{
    if let Some(packet) = ends.take(NodeNo(0)) {
        ends.reserve(NodeNo(0), 1)?;
        ends.send(NodeNo(0), packet.wrapping_add(1000));
    }
    Ok(())
}

// Node 1 answers what its ring shows, and each node goes on with its outbox.
#[tactic(auto, using(wires::proofs::Lemmas::stays_trans))]
fn answer(ends: &mut Ends<u32>) -> Result<(), NoMemory>
    requires { 0 < width ends.old }
    ensures { StaysWired ends.old ends.new }
{
    if ends.me() == NodeNo(1) {
        for _n in 0..64 {
            answer_one(ends)?;
        }
    }
    ends.flush();
    Ok(())
}

fn answer_here(nodes: &mut [Ends<u32>]) -> Result<(), NoMemory>
    requires places { 1 < length nodes.old }
    requires wired { AreWired nodes.old }
    ensures { AreWired nodes.new }
{
    answer(&mut nodes[1])
}

// Each node's ends go to a thread of their own, and come back.
fn answer_beside<R: Threads + Sync>(
    rt: &R,
    nodes: Vec<Ends<u32>>,
) -> Result<Vec<Ends<u32>>, AllocError>
    requires places { 1 < vec_len nodes }
    requires wired { AreWired nodes.items }
    ensures { IfOk result (λ back. (vec_len back ≡ vec_len nodes) × AreWired back.items) }
{
    let each = |ends: Ends<u32>| -> Ends<u32>
        requires { 0 < width ends }
        ensures { StaysWired ends result }
    {
        let mut ends = ends;
        let _done = answer(&mut ends);
        ends
    };
    let back = thread::map_vec(rt, nodes, &each)?;
    Ok(back)
}

// Whether node 0 has the answers in their order: first those to what the ring held, which no settle has moved, and after a
// settle, and one for what node 1 sends then, those to what was left in the outbox.
fn are_answered(nodes: &mut [Ends<u32>]) -> Result<bool, NoMemory>
    requires places { 1 < length nodes.old }
    requires wired { AreWired nodes.old }
{
    look_all(nodes);
    if !gives(nodes, 1000, 1064) {
        return Ok(false);
    }
    settle_all(nodes)?;
    answer_here(nodes)?;
    settle_all(nodes)?;
    Ok(gives(nodes, 1064, 1100))
}

#[test]
fn ends_move_to_threads_and_back(rt: HostRuntime) -> Result<(), Fail> {
    let nodes = sent(rt.alloc())?;
    let mut nodes = answer_beside(&rt, nodes)?;
    assert!(rt; are_answered(nodes.as_mut_slice())?);
    Ok(())
}

// Whether a full ring takes no more, and what was left of the outbox once it has room, with no settle.
fn goes_on_with_room(nodes: &mut [Ends<u32>]) -> bool
    requires places { 1 < length nodes.old }
    requires wired { AreWired nodes.old }
{
    let were_there = shows(nodes, 0, 64);
    flush(nodes);
    were_there && shows(nodes, 64, 100)
}

#[test]
fn a_ring_that_was_full_takes_more_once_it_has_room(rt: HostRuntime) -> Result<(), Fail> {
    let mut nodes = sent(rt.alloc())?;
    assert!(rt; goes_on_with_room(nodes.as_mut_slice()));
    Ok(())
}
