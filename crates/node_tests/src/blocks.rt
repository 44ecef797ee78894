//! Which blocks of memory are spare in the end: those of threads that have ended or weren't taken in, and of freed slots.

ghost use Rattle.std.specs.Prelude.{IfOk};
ghost use Rattle.node_state.specs.Events.{StartsAligned};

use basics::Items;
use levels::Tree;
use node_state::NodeState;
use run_trace::{Act, Packet, Program, Send, Setup};
use rv_inst::Image;
use slot_space::{Geometry, NodeNo, Tid};
use std::alloc::Global;
use std::collections::VecDeque;
use std::test::Fail;

/// A thousand times it creates a thread and joins it. That one allocates two blocks of 65,536 bytes, frees the second, and ends.
const ROUNDS: [u32; 22] = [
    0x0010_0893,
    0x0000_0073,
    0x3e80_0413,
    0x0000_0517,
    0x02c5_0513,
    0x0000_0593,
    0x0030_0613,
    0x0060_0893,
    0x0000_0073,
    0x0070_0893,
    0x0000_0073,
    0xfff4_0413,
    0xfc04_1ee3,
    0x0000_8067,
    0x00c0_0893,
    0x0001_0537,
    0x0000_0073,
    0x0001_0537,
    0x0000_0073,
    0x00d0_0893,
    0x0000_0073,
    0x0000_8067,
];

/// It allocates a block of 70 slots, and ends.
const GREAT: [u32; 6] = [
    0x0010_0893,
    0x0000_0073,
    0x0046_0537,
    0x00c0_0893,
    0x0000_0073,
    0x0000_8067,
];

/// It allocates a block, moves to node 1, and ends.
const MOVED: [u32; 9] = [
    0x0010_0893,
    0x0000_0073,
    0x0640_0513,
    0x00c0_0893,
    0x0000_0073,
    0x0010_0513,
    0x00e0_0893,
    0x0000_0073,
    0x0000_8067,
];

fn image(alloc: Global, words: &[u32]) -> Result<Image, Fail>
    ensures { IfOk result (λ image. StartsAligned image) }
{
    let mut bytes = Vec::new(alloc);
    for word in words {
        bytes.extend_from_slice(&word.to_le_bytes())?;
    }
    Ok(Image {
        bytes: Items::new(bytes),
        main: 0x10008,
        services: Items::new(Vec::new(alloc)),
    })
}

fn program(alloc: Global, nodes: u8, slots: u16, image: &Image) -> Result<Program, Fail>
    requires { StartsAligned image.now }
    ensures { IfOk result (λ p. StartsAligned p.image) }
{
    let geometry = Geometry::new(nodes, slots).ok_or("within the limits")?;
    let setup = Setup {
        geometry,
        tree: Tree::new(1, None).ok_or("a tree")?,
        quantum: 1000,
    };
    Ok(Program::of(alloc, &setup, image)?)
}

/// A packet is taken where there is one, else a thread runs, until none can.
fn go(alloc: Global, program: &Program, node: &mut NodeState) -> Result<(), Fail>
    requires { StartsAligned program.now.image }
{
    let me = NodeNo(0);
    let mut packets = VecDeque::new(alloc);
    let mut act = Act::Boot;
    let mut took = None;
    for _ in 0..20_000 {
        let Some(done) = node.event(program, me, act, took)? else {
            break;
        };
        for send in done.sends.into_vec() {
            let body = send.body;
            packets.push_back(Packet { stamp: 1, body })?;
        }
        took = packets.pop_front();
        act = match took {
            Some(_) => Act::Take(me),
            None => Act::Run(0, 1000),
        };
    }
    Ok(())
}

/// The spare blocks of one node, once nothing can happen on it any more.
fn spare_alone(alloc: Global, slots: u16, image: &Image) -> Result<u32, Fail>
    requires { StartsAligned image.now }
{
    let program = program(alloc, 1, slots, image)?;
    let mut node = NodeState::fresh(alloc, program.setup(), NodeNo(0));
    go(alloc, &program, &mut node)?;
    Ok(node.spare())
}

/// Two nodes, and the packet that was sent last.
#[derive(Drop)]
struct Two {
    here: NodeState,
    there: NodeState,
    sent: Option<Packet>,
}

/// One event on a node. What takes a packet takes the one that was sent last.
fn step(
    program: &Program,
    me: u8,
    act: Act,
    node: &mut NodeState,
    sent: &mut Option<Packet>,
) -> Result<(), Fail>
    requires { StartsAligned program.now.image }
{
    let took = match act {
        Act::Take(_) => sent.take(),
        _ => None,
    };
    let done = node
        .event(program, NodeNo(me), act, took)?
        .ok_or("the act is possible")?;
    if let Some(Send { to: _, body }) = done.sends.into_vec().pop() {
        *sent = Some(Packet { stamp: 1, body });
    }
    Ok(())
}

/// These acts, each on the first node or on the second, whose number is given.
fn walk(program: &Program, second: u8, acts: &[(bool, Act)], two: &mut Two) -> Result<(), Fail>
    requires { StartsAligned program.now.image }
{
    for (on_second, act) in acts {
        if *on_second {
            step(program, second, *act, &mut two.there, &mut two.sent)?;
        } else {
            step(program, 0, *act, &mut two.here, &mut two.sent)?;
        }
    }
    Ok(())
}

/// The spare blocks of two nodes after these acts.
fn spare_after(
    alloc: Global,
    image: &Image,
    second: u8,
    acts: &[(bool, Act)],
) -> Result<(u32, u32), Fail>
    requires { StartsAligned image.now }
{
    let program = program(alloc, 2, 8, image)?;
    let mut two = Two {
        here: NodeState::fresh(alloc, program.setup(), NodeNo(0)),
        there: NodeState::fresh(alloc, program.setup(), NodeNo(second)),
        sent: None,
    };
    walk(&program, second, acts, &mut two)?;
    Ok((two.here.spare(), two.there.spare()))
}

/// A stack and two slots of a heap for a thousand threads, and the stack of the first.
#[test]
fn a_thousand_threads_have_four_blocks(rt: HostRuntime) -> Result<(), Fail> {
    let image = image(rt.alloc(), &ROUNDS)?;
    assert!(rt; spare_alone(rt.alloc(), 16, &image)? == 4);
    Ok(())
}

/// Of 71 blocks that a thread had, those past 64 are given up.
#[test]
fn few_blocks_stay_spare(rt: HostRuntime) -> Result<(), Fail> {
    let image = image(rt.alloc(), &GREAT)?;
    assert!(rt; spare_alone(rt.alloc(), 128, &image)? == 64);
    Ok(())
}

const MOVES: [(bool, Act); 6] = [
    (false, Act::Boot),
    (true, Act::Boot),
    (false, Act::Run(0, 1000)),
    (false, Act::Run(0, 1000)),
    (true, Act::Take(NodeNo(0))),
    (true, Act::Run(0, 1000)),
];

/// Those of a thread that moves go with it, and are spare once it has ended on the node where it came.
#[test]
fn blocks_go_where_a_thread_goes(rt: HostRuntime) -> Result<(), Fail> {
    let image = image(rt.alloc(), &MOVED)?;
    assert!(rt; spare_after(rt.alloc(), &image, 1, &MOVES)? == (0, 2));
    Ok(())
}

/// The thread that is born first.
const MAIN: Tid = Tid {
    home: NodeNo(0),
    seq: 0,
};

/// The second node bears the first one's number, so a thread of that name is there already.
const SENT: [(bool, Act); 4] = [
    (false, Act::Boot),
    (true, Act::Boot),
    (false, Act::Move(MAIN, NodeNo(1))),
    (true, Act::Take(NodeNo(1))),
];

#[test]
fn the_block_of_a_stray_thread_is_spare(rt: HostRuntime) -> Result<(), Fail> {
    let image = image(rt.alloc(), &MOVED)?;
    assert!(rt; spare_after(rt.alloc(), &image, 0, &SENT)? == (0, 1));
    Ok(())
}
