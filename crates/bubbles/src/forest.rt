//! The run lists of a node with its bubbles.

ghost use Rattle.std.specs.Prelude.{◌≡◌, ◌<◌, ◌-◌, ◌^◌, IfOk, OnErr, MatchOption, None, Some, is_some, length, slice_get, option_map, true, false, if◌then◌else◌};
ghost use Rattle.levels.specs.Trees.{processors, is_leaf, covers};
ghost use Rattle.std.specs.List.{position};
ghost use Rattle.levels.specs.Rows.{is_entity, place_of};
ghost use Rattle.levels.specs.Choice.{has_ready};
ghost use Rattle.levels.specs.declared.entity.Entity.TheVariants as entities;
ghost use Rattle.bubbles.specs.Rows.{bubble_of, members_of, is_filling, with_state, thread_of, thread_priority, last_list, with_last, without_thread};
ghost use Rattle.bubbles.specs.Forests.{empty_forest, priority_of, arrives, all_arrive, with_bubble, wakes, holding, joined, inserts, with_thread, enters_at, enters, goes_on, gone, leaves, taken_back, apart_from_others, members_back, filled_with, gathers};
ghost use Rattle.bubbles.specs.Picking.{bursts_at, bursting, burst, down, takes, step, Picks};
ghost use Rattle.bubbles.specs.Standing.{IsForest};

use crate::bubble::{
    Bubble, BubbleState, Did, KnownThread, Picked, Shift, Step, add_member, is_burst, is_filling,
    leave_bubbles, refill, set_state,
};
use basics::NoMemory;
use levels::{Entity, Lists, Place, Tree};
use slot_space::Tid;
use std::alloc::Global;
use std::marker::Model;

/// The run lists of a node, its bubbles by their numbers, and its threads. Contracts see the lists, a row for each bubble, and the threads.
#[derive(Drop)]
pub struct Forest {
    lists: Lists,
    bubbles: Vec<Bubble>,
    threads: Vec<KnownThread>,
    alloc: Global,
}

impl Model for Forest {
    ghost use Rattle.std.specs.Prelude.{◌<◌, ◌^◌, length};
    ghost use Rattle.bubbles.specs.Forests.{ForestView};

    ghost Value = { ForestView };

    ghost view = { λ f. record { lists = f.lists; bubbles = f.bubbles.items; threads = f.threads.items } };

    ghost invariant = { λ f. length f.bubbles.items < 2 ^ 32 };
}

// The thread of that name.
fn thread_of(threads: &[KnownThread], t: &Tid) -> Option<KnownThread>
    ensures { result ≡ thread_of t.now threads.now }
{
    for x in threads {
        if Entity::Thread(x.tid).is(&Entity::Thread(*t)) {
            return Some(*x);
        }
    }
    None
}

// The thread's priority.
fn thread_priority(threads: &[KnownThread], t: &Tid) -> u8
    ensures { result ≡ thread_priority (thread_of t.now threads.now) }
{
    match thread_of(threads, t) {
        None => 0,
        Some(x) => x.priority,
    }
}

// The list from which the thread was last picked.
fn last_list(threads: &[KnownThread], t: &Tid) -> u8
    ensures { result ≡ last_list (thread_of t.now threads.now) }
{
    match thread_of(threads, t) {
        None => 0,
        Some(x) => x.last,
    }
}

// The thread was picked from this list.
fn set_last(threads: &mut [KnownThread], t: &Tid, list: u8)
    ensures { threads.new ≡ with_last t.now list threads.old }
{
    for i in 0..threads.len() {
        if Entity::Thread(threads[i].tid).is(&Entity::Thread(*t)) {
            threads[i].last = list;
            return;
        }
    }
}

// The thread is on the node no more.
#[tactic(auto, using(crate::proofs::Leaving::found_out, crate::proofs::Leaving::none_out))]
fn forget(threads: &mut Vec<KnownThread>, t: &Tid)
    ensures { threads.new.items ≡ without_thread t.now threads.old.items }
{
    match where_is(threads, t) {
        None => {}
        Some(at) => {
            threads.remove(at);
        }
    }
}

// Where the thread stands among these.
fn where_is(threads: &[KnownThread], t: &Tid) -> Option<usize>
    ensures { result ≡ position (λ x. is_entity (entities.Thread x.tid) (entities.Thread t.now)) threads.now }
{
    threads
        .iter()
        .position(|x| Entity::Thread(x.tid).is(&Entity::Thread(*t)))
}

impl Forest {
    /// Lists of this tree, with no bubble and no thread. The allocator is what later calls grow with.
    pub fn new(alloc: Global, tree: Tree) -> Forest
        ensures { result ≡ empty_forest tree }
    {
        Forest {
            lists: Lists::new(alloc, tree),
            bubbles: Vec::new(alloc),
            threads: Vec::new(alloc),
            alloc,
        }
    }

    /// Makes a bubble that takes members: its number.
    pub fn new_bubble(&mut self, priority: u8, depth: u8) -> Result<u32, NoMemory>
        requires { length self.old.bubbles < 2 ^ 32 - 1 }
        ensures { IfOk result (λ b. (b ≡ length self.old.bubbles) × (self.new ≡ with_bubble priority depth self.old)) }
    {
        let b = self.bubbles.len() as u32;
        self.bubbles.push(Bubble {
            state: BubbleState::Filling,
            priority,
            depth,
            members: Vec::new(self.alloc),
        })?;
        Ok(b)
    }

    /// A Filling bubble with members arrives on the root.
    pub fn wake(&mut self, b: u32) -> Result<Did, NoMemory>
        ensures { IfOk result (λ did. (did ≡ (wakes b self.old).answer) × (self.new ≡ (wakes b self.old).after)) }
    {
        match self.bubbles.get(b as usize) {
            None => Ok(Did::NoSuch),
            Some(bubble) => {
                if !is_filling(bubble.state) {
                    return Ok(Did::Taken);
                }
                if bubble.members.is_empty() {
                    return Ok(Did::BadArgument);
                }
                self.arrive(Entity::Bubble(b), 0)?;
                Ok(Did::Done(0))
            }
        }
    }

    /// Of two Filling bubbles the second, if it has members, becomes Held, as the last member of the first.
    pub fn insert(&mut self, b: u32, c: u32) -> Result<Did, NoMemory>
        ensures { IfOk result (λ did. (did ≡ (inserts b c self.old).answer) × (self.new ≡ (inserts b c self.old).after)) }
    {
        if b == c {
            return Ok(Did::BadArgument);
        }
        let Some(outer) = self.bubbles.get(b as usize) else {
            return Ok(Did::NoSuch);
        };
        let Some(inner) = self.bubbles.get(c as usize) else {
            return Ok(Did::NoSuch);
        };
        if !is_filling(outer.state) {
            return Ok(Did::Taken);
        }
        if !is_filling(inner.state) {
            return Ok(Did::Taken);
        }
        if inner.members.is_empty() {
            return Ok(Did::BadArgument);
        }
        self.hold(b, c)?;
        Ok(Did::Done(0))
    }

    /// A new thread becomes a member of the bubble, where that is Filling, else it arrives on the root.
    pub fn add_thread(&mut self, t: Tid, priority: u8, bubble: Option<u32>) -> Result<(), NoMemory>
        ensures { IfOk result (λ _. self.new ≡ enters t priority bubble self.old) }
    {
        self.know(&t, priority)?;
        self.enter(&t, bubble)
    }

    /// A thread that goes on arrives on the list from which it was last picked.
    pub fn again(&mut self, t: Tid) -> Result<(), NoMemory>
        ensures { IfOk result (λ _. self.new ≡ goes_on t self.old) }
    {
        let list = last_list(&self.threads, &t);
        self.arrive(Entity::Thread(t), list)
    }

    /// A Burst bubble leaves its own parent and takes those of its members back that are on lists, in their order: how many these are.
    pub fn gather(&mut self, b: u32) -> Result<Did, NoMemory>
        ensures { IfOk result (λ did. (did ≡ (gathers b self.old).answer) × (self.new ≡ (gathers b self.old).after)) }
    {
        match self.bubbles.get(b as usize) {
            None => Ok(Did::NoSuch),
            Some(bubble) => {
                if !is_burst(bubble.state) {
                    return Ok(Did::Taken);
                }
                self.leave_others(b);
                let kept = self.members_back(b)?;
                self.refill(b, kept)
            }
        }
    }

    /// The thread leaves its list, all bubbles and the node. False exactly where it isn't known, and then nothing has changed. It takes no memory.
    pub fn leave(&mut self, t: Tid) -> bool
        ensures known { result ≡ is_some (thread_of t self.old.threads) }
        ensures after { self.new ≡ leaves t self.old }
    {
        if !self.knows(&t) {
            return false;
        }
        self.depart(&t);
        true
    }

    /// The thread that the processor runs next, which is off its list now, and what happened to bubbles on the way. None exactly where no list
    /// that covers the processor has an entity. After want of memory the forest is used no more.
    pub fn pick(&mut self, vp: u8) -> Result<Option<Picked>, NoMemory>
        requires processor { vp < processors self.old.lists.tree }
        requires forest { IsForest self.old }
        ensures forest { IfOk result (λ _. IsForest self.new) }
        ensures picked { IfOk result (λ r. MatchOption r (has_ready self.old.lists.tree vp self.old.lists.rows ≡ false) (λ p. (has_ready self.old.lists.tree vp self.old.lists.rows ≡ true) × Picks vp self.old p.moves.items (Some p.thread) self.new)) }
    {
        let mut moves = Vec::new(self.alloc);
        loop {
            match self.step(vp)? {
                Step::Empty => return Ok(None),
                Step::Takes(thread) => return Ok(Some(Picked { thread, moves })),
                Step::Shifts(shift) => moves.push(shift)?,
            }
        }
    }

    /// Some entity is on a list that covers the processor.
    pub fn has_pick(&self, vp: u8) -> bool
        ensures { result ≡ has_ready self.now.lists.tree vp self.now.lists.rows }
    {
        self.lists.has_ready(vp)
    }

    /// The thread is on a list.
    pub fn on_list(&self, t: Tid) -> bool
        ensures { result ≡ is_some (place_of (entities.Thread t) self.now.lists.rows) }
    {
        match self.lists.place_of(Entity::Thread(t)) {
            None => false,
            Some(_) => true,
        }
    }

    /// A thread of this home and number is on a list, whatever number the home is.
    pub fn on_list_by(&self, home: u64, seq: u32) -> bool
        ensures { result ≡ is_some (place_of (entities.Thread (record { home = home; seq = seq })) self.now.lists.rows) }
    {
        self.lists.has_thread(home, seq)
    }

    /// Where the thread stands. None exactly where it is on no list.
    pub fn place_of(&self, t: Tid) -> Option<Place>
        ensures { result ≡ place_of (entities.Thread t) self.now.lists.rows }
    {
        self.lists.place_of(Entity::Thread(t))
    }

    /// How many bubbles there are.
    pub fn bubbles(&self) -> u32
        ensures { result ≡ length self.now.bubbles }
    {
        self.bubbles.len() as u32
    }

    /// The tree of the lists.
    pub fn tree(&self) -> Tree
        ensures { result ≡ self.now.lists.tree }
    {
        self.lists.tree()
    }

    /// How many entities are on lists.
    pub fn count(&self) -> u32
        ensures { result ≡ length self.now.lists.rows }
    {
        self.lists.count()
    }

    /// The bubble's state. None exactly where there is no such bubble.
    pub fn state_of(&self, b: u32) -> Option<BubbleState>
        ensures { result ≡ option_map (λ x. x.state) (bubble_of b self.now.bubbles) }
    {
        match self.bubbles.get(b as usize) {
            None => None,
            Some(bubble) => Some(bubble.state),
        }
    }

    // The bubble is a member of no other.
    fn leave_others(&mut self, b: u32)
        ensures { self.new ≡ apart_from_others b self.old }
    {
        leave_bubbles(&mut self.bubbles, &Entity::Bubble(b));
    }

    // Those of the bubble's members that are on lists are taken off them, in their order.
    fn members_back(&mut self, b: u32) -> Result<Vec<Entity>, NoMemory>
        ensures { IfOk result (λ kept. record { kept = kept.items; after = self.new } ≡ members_back b self.old) }
    {
        let mut kept = Vec::new(self.alloc);
        for i in 0..self.width(b) {
            if let Some(e) = self.member(b, i) {
                if self.take_back(&e) {
                    kept.push(e)?;
                }
            }
        }
        Ok(kept)
    }

    // The entity is taken off its list, to be held again. False exactly where it is on none.
    fn take_back(&mut self, e: &Entity) -> bool
        ensures found { result ≡ is_some (place_of e.now self.old.lists.rows) }
        ensures after { self.new ≡ (if is_some (place_of e.now self.old.lists.rows) then taken_back e.now self.old else self.old) }
    {
        match self.lists.place_of(*e) {
            None => false,
            Some(_) => {
                self.lists.remove(*e);
                if let Entity::Bubble(c) = e {
                    set_state(&mut self.bubbles, *c, BubbleState::Held);
                }
                true
            }
        }
    }

    // The bubble takes members again, and has these.
    fn refill(&mut self, b: u32, kept: Vec<Entity>) -> Result<Did, NoMemory>
        ensures { IfOk result (λ did. (did ≡ (filled_with b (record { kept = kept.items; after = self.old })).answer) × (self.new ≡ (filled_with b (record { kept = kept.items; after = self.old })).after)) }
    {
        let Ok(count) = u32::try_from(kept.len()) else {
            return Err(NoMemory);
        };
        refill(&mut self.bubbles, b, kept);
        Ok(Did::Done(count))
    }

    // The thread is on the node.
    fn knows(&self, t: &Tid) -> bool
        ensures { result ≡ is_some (thread_of t.now self.now.threads) }
    {
        match thread_of(&self.threads, t) {
            None => false,
            Some(_) => true,
        }
    }

    // The thread leaves its list, all bubbles and the node.
    fn depart(&mut self, t: &Tid)
        ensures { self.new ≡ gone t.now self.old }
    {
        self.lists.remove(Entity::Thread(*t));
        leave_bubbles(&mut self.bubbles, &Entity::Thread(*t));
        forget(&mut self.threads, t);
    }

    // The thread is on the node, and has not been picked yet.
    fn know(&mut self, t: &Tid, priority: u8) -> Result<(), NoMemory>
        ensures { IfOk result (λ _. self.new ≡ with_thread t.now priority self.old) }
    {
        self.threads.push(KnownThread {
            tid: *t,
            priority,
            last: 0,
        })?;
        Ok(())
    }

    // The thread becomes a member of the bubble, where that is Filling, else it arrives on the root.
    fn enter(&mut self, t: &Tid, bubble: Option<u32>) -> Result<(), NoMemory>
        ensures { IfOk result (λ _. self.new ≡ enters_at bubble t.now self.old) }
    {
        match bubble {
            None => self.arrive(Entity::Thread(*t), 0),
            Some(b) => {
                if !self.fills(b) {
                    return self.arrive(Entity::Thread(*t), 0);
                }
                self.join(b, Entity::Thread(*t))
            }
        }
    }

    // The entity becomes the last member of the bubble.
    fn join(&mut self, b: u32, e: Entity) -> Result<(), NoMemory>
        ensures { IfOk result (λ _. self.new ≡ joined b e self.old) }
    {
        add_member(&mut self.bubbles, b, e)?;
        Ok(())
    }

    // The bubble takes members.
    fn fills(&self, b: u32) -> bool
        ensures { result ≡ is_filling (bubble_of b self.now.bubbles) }
    {
        match self.bubbles.get(b as usize) {
            None => false,
            Some(bubble) => is_filling(bubble.state),
        }
    }

    // The second becomes Held, as the last member of the first.
    fn hold(&mut self, b: u32, c: u32) -> Result<(), NoMemory>
        ensures { IfOk result (λ _. self.new ≡ joined b (entities.Bubble c) (holding c self.old)) }
    {
        set_state(&mut self.bubbles, c, BubbleState::Held);
        self.join(b, Entity::Bubble(c))
    }

    /// One choice of the processor, and what comes of it: nothing is there, a thread is taken off its list, or a bubble is moved. After want of
    /// memory the forest is used no more.
    #[tactic(auto, unfolding(crate::specs::Picking::step))]
    pub fn step(&mut self, vp: u8) -> Result<Step, NoMemory>
        requires processor { vp < processors self.old.lists.tree }
        ensures { IfOk result (λ what. (what ≡ (step vp self.old).what) × (self.new ≡ (step vp self.old).after)) }
    {
        match self.lists.best(vp) {
            None => Ok(Step::Empty),
            Some((place, e)) => match e {
                Entity::Thread(t) => Ok(self.take(&t, place.list)),
                Entity::Bubble(b) => {
                    if self.bursts_at(b, place.list) {
                        return self.burst(b, place.list);
                    }
                    let next = self.lists.tree().next(place.list, vp);
                    self.lower(b, next)
                }
            },
        }
    }

    // The thread is taken off the list.
    fn take(&mut self, t: &Tid, list: u8) -> Step
        ensures { (result ≡ (takes t.now list self.old).what) × (self.new ≡ (takes t.now list self.old).after) }
    {
        self.lists.remove(Entity::Thread(*t));
        set_last(&mut self.threads, t, list);
        Step::Takes(*t)
    }

    // The bubble bursts on the list, if it is chosen there.
    fn bursts_at(&self, b: u32, list: u8) -> bool
        ensures { result ≡ bursts_at self.now.lists.tree list (bubble_of b self.now.bubbles) }
    {
        let tree = self.lists.tree();
        match self.bubbles.get(b as usize) {
            None => true,
            Some(bubble) => tree.is_leaf(list) || bubble.depth <= tree.depth(list),
        }
    }

    // The bubble bursts on the list.
    #[tactic(auto, using(crate::proofs::Updates::members_state))]
    fn burst(&mut self, b: u32, list: u8) -> Result<Step, NoMemory>
        ensures { IfOk result (λ what. (what ≡ (burst b list self.old).what) × (self.new ≡ (burst b list self.old).after)) }
    {
        self.open(b);
        self.settle(b, list)?;
        Ok(Step::Shifts(Shift::Burst(b, list)))
    }

    // The bubble goes down to the list.
    fn lower(&mut self, b: u32, list: u8) -> Result<Step, NoMemory>
        ensures { IfOk result (λ what. (what ≡ (down b list self.old).what) × (self.new ≡ (down b list self.old).after)) }
    {
        self.lists.remove(Entity::Bubble(b));
        self.arrive(Entity::Bubble(b), list)?;
        Ok(Step::Shifts(Shift::Down(b, list)))
    }

    // The bubble is off its list, and Burst.
    fn open(&mut self, b: u32)
        ensures { self.new ≡ bursting b self.old }
    {
        self.lists.remove(Entity::Bubble(b));
        set_state(&mut self.bubbles, b, BubbleState::Burst);
    }

    // The bubble's members arrive on the list.
    fn settle(&mut self, b: u32, list: u8) -> Result<(), NoMemory>
        ensures { IfOk result (λ _. self.new ≡ all_arrive list (members_of (bubble_of b self.old.bubbles)) self.old) }
    {
        for i in 0..self.width(b) {
            if let Some(e) = self.member(b, i) {
                self.arrive(e, list)?;
            }
        }
        Ok(())
    }

    // How many members the bubble has.
    fn width(&self, b: u32) -> usize
        ensures { result ≡ length (members_of (bubble_of b self.now.bubbles)) }
    {
        match self.bubbles.get(b as usize) {
            None => 0,
            Some(bubble) => bubble.members.len(),
        }
    }

    // The bubble's member at this place.
    fn member(&self, b: u32, i: usize) -> Option<Entity>
        ensures { result ≡ slice_get (members_of (bubble_of b self.now.bubbles)) i }
    {
        match self.bubbles.get(b as usize) {
            None => None,
            Some(bubble) => bubble.members.get(i).copied(),
        }
    }

    // The entity's priority.
    fn priority_of(&self, e: &Entity) -> u8
        ensures { result ≡ priority_of e.now self.now }
    {
        match e {
            Entity::Thread(t) => thread_priority(&self.threads, t),
            Entity::Bubble(b) => match self.bubbles.get(*b as usize) {
                None => 0,
                Some(bubble) => bubble.priority,
            },
        }
    }

    // The entity arrives on the list.
    fn arrive(&mut self, e: Entity, list: u8) -> Result<(), NoMemory>
        ensures { IfOk result (λ _. self.new ≡ arrives list e self.old) }
    {
        let priority = self.priority_of(&e);
        self.lists.put(e, list, priority)?;
        if let Entity::Bubble(b) = e {
            set_state(&mut self.bubbles, b, BubbleState::Queued);
        }
        Ok(())
    }
}
