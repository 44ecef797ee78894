//! The labels of an entry, kept small.

ghost use Rattle.std.specs.Prelude.{◌≡◌, [], IfOk};

use crate::label::{Extra, Label};
use basics::Items;
use rv_step::Stop;
use slot_space::Tid;
use std::alloc::{AllocError, Global};
use std::marker::Model;

/// The labels of an entry, in order. Those of a call without arguments that is answered at once take no memory of their own.
#[derive(Drop)]
pub struct Labels {
    alloc: Global,
    kept: Kept,
}

// How they are kept.
#[derive(Drop)]
enum Kept {
    // Any labels.
    All(Items<Label>),
    // Ran, asked, judged and told of one thread, whose call has no arguments.
    Answered {
        t: Tid,
        vp: u8,
        count: u32,
        call: u64,
        reply: u64,
    },
}

// The same labels, with no room for more.
fn without_room(alloc: Global, labels: Vec<Label>) -> Result<Vec<Label>, AllocError>
    ensures { IfOk result (λ exact. exact.items ≡ labels.items) }
{
    let mut labels = labels;
    let mut exact = Vec::new(alloc);
    exact.reserve_exact(labels.len())?;
    exact.append(&mut labels)?;
    Ok(exact)
}

impl Model for Labels {
    ghost use Rattle.std.specs.Prelude.{List};
    ghost use Rattle.run_trace.specs.declared.label.Label.{Label as TheLabel};
    ghost use Rattle.run_trace.specs.Kept.{labels_kept};

    ghost Value = { List TheLabel };

    ghost view = { λ l. labels_kept l.kept };
}

impl Labels {
    /// No labels.
    pub fn none(alloc: Global) -> Labels
        ensures { result ≡ [] }
    {
        Labels {
            alloc,
            kept: Kept::All(Items::new(Vec::new(alloc))),
        }
    }

    /// These labels.
    pub fn new(alloc: Global, labels: Items<Label>) -> Result<Labels, AllocError>
        ensures { IfOk result (λ l. l ≡ labels) }
    {
        let kept = match labels.as_slice() {
            [
                Label::Ran {
                    t,
                    vp,
                    count,
                    stop: Stop::Call,
                },
                Label::Asked {
                    t: asking,
                    call,
                    args,
                    bytes,
                },
                Label::Judged {
                    t: judged,
                    reply,
                    extra: Extra::Nothing,
                },
                Label::Told(told),
            ] if asking == t
                && judged == t
                && told == t
                && args.as_slice().is_empty()
                && bytes.as_slice().is_empty() => {
                Some(Kept::Answered {
                    t: *t,
                    vp: *vp,
                    count: *count,
                    call: *call,
                    reply: *reply,
                })
            }
            _ => None,
        };
        let kept = match kept {
            Some(kept) => kept,
            None => Kept::All(Items::new(without_room(alloc, labels.into_vec())?)),
        };
        Ok(Labels { alloc, kept })
    }

    /// The labels, in order; `room` is where those are put together that take no memory.
    pub fn as_slice<'a>(&'a self, room: &'a mut Option<[Label; 4]>) -> &'a [Label]
        ensures { result.now ≡ self.now }
    {
        match &self.kept {
            Kept::All(labels) => labels.as_slice(),
            Kept::Answered {
                t,
                vp,
                count,
                call,
                reply,
            } => room.insert([
                Label::Ran {
                    t: *t,
                    vp: *vp,
                    count: *count,
                    stop: Stop::Call,
                },
                Label::Asked {
                    t: *t,
                    call: *call,
                    args: Items::new(Vec::new(self.alloc)),
                    bytes: Items::new(Vec::new(self.alloc)),
                },
                Label::Judged {
                    t: *t,
                    reply: *reply,
                    extra: Extra::Nothing,
                },
                Label::Told(*t),
            ]),
        }
    }
}
