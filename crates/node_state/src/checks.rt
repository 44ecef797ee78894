//! The checks of a call, made before anything is done.

ghost use Rattle.std.specs.Prelude.{◌≡◌, ◌%◌, ◌==◌, ◌&&◌, is_some, IfOk};
ghost use Rattle.rv_inst.specs.Image.{image_word};
ghost use Rattle.run_trace.specs.declared.call.Call.TheVariants as call_of;
ghost use Rattle.run_trace.specs.Guests.{Solo};
ghost use Rattle.node_state.specs.Asking.{IsChecked, IsOfNumbers};

use crate::call::Checked;
use crate::names::home_of;
use basics::NoMemory;
use marcel_sync::VALUE_LIMIT;
use node_thread::{PRINT_LIMIT, Thread};
use run_trace::{Call, Program};
use rv_inst::Image;
use slot_space::{Reply, SLOT_SIZE, Tid};
use std::alloc::Global;

/// A thread can start here.
fn is_entry(image: &Image, entry: u64) -> bool
    ensures { result ≡ ((entry % 4 == 0) && is_some (image_word image.now.bytes entry)) }
{
    entry % 4 == 0 && image.word(entry).is_some()
}

/// The checks of an isomalloc of so many bytes.
fn check_len(program: &Program, len: u64) -> Checked
    ensures { (t : Tid) (x : Solo) → IsChecked program.now t x (call_of.Isomalloc len) result }
{
    if len == 0 {
        return Checked::Refused(Reply::BadArgument);
    }
    if len > SLOT_SIZE * program.setup().geometry.slots() as u64 {
        return Checked::Refused(Reply::TooLong);
    }
    Checked::Passed
}

/// The checks of a join of the thread of that name.
fn check_join(program: &Program, t: &Tid, name: u64) -> Checked
    ensures { (x : Solo) → IsChecked program.now t.now x (call_of.Join name) result }
{
    if name == t.value() {
        return Checked::Refused(Reply::BadArgument);
    }
    if home_of(name) >= program.nodes() as u64 {
        return Checked::Refused(Reply::NoSuch);
    }
    Checked::Passed
}

/// The checks of a call of thread t, which look at its numbers alone.
fn check_numbers(program: &Program, t: &Tid, call: Call) -> Checked
    requires { IsOfNumbers call }
    ensures { (x : Solo) → IsChecked program.now t.now x call result }
{
    match call {
        Call::Create {
            entry,
            priority,
            ..
        }
        | Call::CreateIn {
            entry,
            priority,
            ..
        } => {
            if is_entry(program.image(), entry) && priority <= 7 {
                Checked::Passed
            } else {
                Checked::Refused(Reply::BadArgument)
            }
        }
        Call::Join(name) => check_join(program, t, name),
        Call::Detach(name) | Call::SemP(name) | Call::SemV(name) => {
            if home_of(name) >= program.nodes() as u64 {
                return Checked::Refused(Reply::NoSuch);
            }
            Checked::Passed
        }
        Call::SemNew(value) => {
            if value > VALUE_LIMIT as u64 {
                return Checked::Refused(Reply::BadArgument);
            }
            Checked::Passed
        }
        Call::BubbleNew { priority, depth } => {
            if priority > 7 || depth > 2 {
                return Checked::Refused(Reply::BadArgument);
            }
            Checked::Passed
        }
        Call::BubbleInsert { bubble, member } => {
            if bubble == member {
                return Checked::Refused(Reply::BadArgument);
            }
            Checked::Passed
        }
        Call::Isomalloc(len) => check_len(program, len),
        Call::MigrateSelf(to) | Call::Migrate { name: _, to } => {
            if to >= program.nodes() as u64 {
                return Checked::Refused(Reply::BadArgument);
            }
            Checked::Passed
        }
        Call::Exit(_)
        | Call::Name
        | Call::Node
        | Call::Nodes
        | Call::Yield
        | Call::BubbleWake(_)
        | Call::BubbleGather(_)
        | Call::Halt => Checked::Passed,
        // The others look at the thread.
        Call::Unknown(_) | Call::Print { .. } | Call::Isofree(_) => {
            Checked::Refused(Reply::BadArgument)
        }
    }
}

/// The checks of a call of thread t.
pub(crate) fn check(
    alloc: Global,
    program: &Program,
    t: &Tid,
    thread: &Thread,
    call: Call,
) -> Result<Checked, NoMemory>
    ensures { IfOk result (λ checked. IsChecked program.now t.now thread.now.guest.solo call checked) }
{
    match call {
        Call::Print { address, len } => {
            if len > PRINT_LIMIT as u64 {
                return Ok(Checked::Refused(Reply::TooLong));
            }
            match thread.bytes(alloc, program.image(), address, len as usize)? {
                None => Ok(Checked::Refused(Reply::BadArgument)),
                Some(bytes) => Ok(Checked::Shows(bytes)),
            }
        }
        Call::Isofree(address) => {
            if thread.has_block(address) {
                Ok(Checked::Passed)
            } else {
                Ok(Checked::Refused(Reply::NoSuch))
            }
        }
        _ => Ok(check_numbers(program, t, call)),
    }
}
