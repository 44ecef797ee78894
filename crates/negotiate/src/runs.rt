//! Runs of slots that are taken out of a set.

ghost use Rattle.std.specs.Prelude.{◌≡◌};
ghost use Rattle.slot_space.specs.Sets.{minus, run};

use slot_space::{SLOT_LIMIT, SlotNo, SlotSet};

/// Takes the slots of the run out, those that are members.
pub(crate) fn take_run(set: &mut SlotSet, first: SlotNo, count: u16)
    ensures { set.new ≡ minus set.old (run first count) }
{
    match set.next_from(first.0) {
        Some(_) => set.remove_run(first, count.min(SLOT_LIMIT - first.0)),
        None => {}
    }
}
