//! Bubbles, and what calls on them answer.

ghost use Rattle.std.specs.Prelude.{◌≡◌, IfOk};
ghost use Rattle.bubbles.specs.Rows.{bubble_row, with_state, with_member, is_filling_as, first_out, without_member, is_burst_as, refilled};
ghost use Rattle.std.specs.List.{position};
ghost use Rattle.levels.specs.Rows.{is_entity};

use basics::{Items, NoMemory};
use levels::Entity;
use slot_space::Tid;
use std::alloc::Global;
use std::marker::Model;

/// Where a bubble is.
#[derive(Clone, Copy, Debug, PartialEq, Eq)]
pub enum BubbleState {
    /// It takes members.
    Filling,
    /// It is a member of another.
    Held,
    /// It is on a list.
    Queued,
    /// Its members have been let go.
    Burst,
}

/// A bubble as its callers see it: the depth at which it bursts, and its members in the order of insertion.
#[derive(Drop)]
pub struct BubbleRow {
    pub state: BubbleState,
    pub priority: u8,
    pub depth: u8,
    pub members: Items<Entity>,
}

/// A thread that is on the node: its priority, and the list from which it was last picked.
#[derive(Clone, Copy, Debug, PartialEq, Eq)]
pub struct KnownThread {
    pub tid: Tid,
    pub priority: u8,
    pub last: u8,
}

/// What a call on bubbles answers.
#[derive(Clone, Copy, Debug, PartialEq, Eq)]
pub enum Did {
    Done(u32),
    BadArgument,
    NoSuch,
    Taken,
}

/// What happens to a bubble that is chosen: it goes down to a list, or bursts on one.
#[derive(Clone, Copy, Debug, PartialEq, Eq)]
pub enum Shift {
    Down(u32, u8),
    Burst(u32, u8),
}

/// One choice: nothing is there, a thread is taken, or a bubble is moved.
#[derive(Clone, Copy)]
pub enum Step {
    Empty,
    Takes(Tid),
    Shifts(Shift),
}

/// A thread that was picked, and what happened to bubbles on the way.
#[derive(Drop)]
pub struct Picked {
    pub thread: Tid,
    pub moves: Vec<Shift>,
}

/// A bubble that is in use. Contracts see its row.
#[derive(Drop)]
pub(crate) struct Bubble {
    pub(crate) state: BubbleState,
    pub(crate) priority: u8,
    pub(crate) depth: u8,
    pub(crate) members: Vec<Entity>,
}

impl Model for Bubble {
    ghost use Rattle.bubbles.specs.declared.bubble.BubbleRow.{BubbleRow};
    ghost use Rattle.bubbles.specs.Rows.{bubble_row};

    ghost Value = { BubbleRow };

    ghost view = { λ b. bubble_row b.state b.priority b.depth b.members.items };
}

/// The bubble has become so, if there is one of that number.
pub(crate) fn set_state(bubbles: &mut [Bubble], b: u32, state: BubbleState)
    ensures { bubbles.new ≡ with_state b state bubbles.old }
{
    let b = b as usize;
    if b < bubbles.len() {
        let bubble = &mut bubbles[b];
        bubble.state = state;
    }
}

/// The entity has become the last member of the bubble, if there is one of that number.
pub(crate) fn add_member(bubbles: &mut [Bubble], b: u32, e: Entity) -> Result<(), NoMemory>
    ensures { IfOk result (λ _. bubbles.new ≡ with_member b e bubbles.old) }
{
    let b = b as usize;
    if b < bubbles.len() {
        let bubble = &mut bubbles[b];
        bubble.members.push(e)?;
    }
    Ok(())
}

/// It takes members.
pub(crate) fn is_filling(state: BubbleState) -> bool
    ensures { result ≡ is_filling_as state }
{
    match state {
        BubbleState::Filling => true,
        BubbleState::Held | BubbleState::Queued | BubbleState::Burst => false,
    }
}

// The first such member goes.
#[tactic(auto, using(crate::proofs::Leaving::found_out, crate::proofs::Leaving::none_out))]
fn member_out(members: &mut Vec<Entity>, e: &Entity)
    ensures { members.new.items ≡ first_out (λ m. is_entity m e.now) members.old.items }
{
    match where_is(members, e) {
        None => {}
        Some(at) => {
            members.remove(at);
        }
    }
}

// Where the entity stands among these.
fn where_is(members: &[Entity], e: &Entity) -> Option<usize>
    ensures { result ≡ position (λ m. is_entity m e.now) members.now }
{
    members.iter().position(|m| m.is(e))
}

/// The entity is a member of no bubble.
pub(crate) fn leave_bubbles(bubbles: &mut [Bubble], e: &Entity)
    ensures { bubbles.new ≡ without_member e.now bubbles.old }
{
    for i in 0..bubbles.len() {
        let bubble = &mut bubbles[i];
        member_out(&mut bubble.members, e);
    }
}

/// Its members have been let go.
pub(crate) fn is_burst(state: BubbleState) -> bool
    ensures { result ≡ is_burst_as state }
{
    match state {
        BubbleState::Burst => true,
        BubbleState::Filling | BubbleState::Held | BubbleState::Queued => false,
    }
}

/// The bubble takes members again, and has these, if there is one of that number.
pub(crate) fn refill(bubbles: &mut [Bubble], b: u32, members: Vec<Entity>)
    ensures { bubbles.new ≡ refilled b members.items bubbles.old }
{
    let b = b as usize;
    if b < bubbles.len() {
        let bubble = &mut bubbles[b];
        bubble.state = BubbleState::Filling;
        bubble.members = members;
    }
}
