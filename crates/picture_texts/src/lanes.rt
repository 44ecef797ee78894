//! Each thread's lane in a picture.

ghost use Rattle.std.specs.Prelude.{◌≡◌, IfOk, OnOk};
ghost use Rattle.picture_texts.specs.Layouts.{seating, seated, seats, lane_of};

use crate::parts::subject;
use basics::NoMemory;
use pictures::Shape;
use slot_space::Tid;
use std::alloc::Global;
use std::collections::BTreeMap;

/// The lanes by thread, counted from 0 in the order in which the threads turn up, and how many they are.
#[derive(Drop)]
pub(crate) struct Lanes {
    pub(crate) of: BTreeMap<Tid, u32>,
    pub(crate) count: u32,
}

/// The thread has a lane.
fn seat(lanes: &mut Lanes, t: &Tid) -> Result<(), NoMemory>
    ensures { OnOk result (seating lanes.new.of.entries lanes.new.count ≡ seated t.now (seating lanes.old.of.entries lanes.old.count)) }
{
    if lanes.of.get(t).is_some() {
        return Ok(());
    }
    lanes.of.insert(*t, lanes.count)?;
    lanes.count = lanes.count.saturating_add(1);
    Ok(())
}

/// Each thread of these shapes has a lane.
pub(crate) fn lanes_of(alloc: Global, shapes: &[Shape]) -> Result<Lanes, NoMemory>
    ensures { IfOk result (λ lanes. seating lanes.of.entries lanes.count ≡ seats shapes.now) }
{
    let mut lanes = Lanes {
        of: BTreeMap::new(alloc),
        count: 0,
    };
    for shape in shapes {
        if let Some(t) = subject(shape) {
            seat(&mut lanes, &t)?;
        }
    }
    Ok(lanes)
}

/// The thread's lane.
pub(crate) fn lane_of(lanes: &BTreeMap<Tid, u32>, t: &Tid) -> u32
    ensures { result ≡ lane_of lanes.now.entries t.now }
{
    match lanes.get(t) {
        Some(lane) => *lane,
        None => 0,
    }
}
