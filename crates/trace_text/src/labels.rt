//! Reads the label of a line.

ghost use Rattle.std.specs.Prelude.{◌≡◌, IfOk, None};
ghost use Rattle.std.specs.Option.{option_map};
ghost use Rattle.trace_text.specs.Reading.{left, given, ran_in, asked_in, judged_in, gave_in, home_in, born_in, took_in, left_in, ended_in, decided_in, dropped_in, choose, lent_forms, bubble_forms, thread_forms, plain_named, label_named};

use crate::several::{
    asked_of, end, extra, first, long, reply, short, slots, small, stop, tid, why, word,
};
use run_trace::Label;
use slot_space::{NodeNo, SlotNo};
use std::alloc::{AllocError, Global};

fn ran(rest: &[u8]) -> Option<(Label, &[u8])>
    ensures { ran_in (left 32 rest.now) ≡ option_map given result }
{
    let Some((t, rest)) = tid(rest) else {
        return None
    };
    let Some((vp, rest)) = small(rest) else {
        return None
    };
    let Some((count, rest)) = word(rest) else {
        return None
    };
    let Some((stop, rest)) = stop(rest) else {
        return None
    };
    Some((Label::Ran { t, vp, count, stop }, rest))
}

fn asked<'a>(alloc: Global, rest: &'a [u8]) -> Result<Option<(Label, &'a [u8])>, AllocError>
    ensures { IfOk result (λ o. asked_in (left 32 rest.now) ≡ option_map given o) }
{
    match tid(rest) {
        None => Ok(None),
        Some((t, rest)) => asked_of(alloc, t, rest),
    }
}

fn judged<'a>(alloc: Global, rest: &'a [u8]) -> Result<Option<(Label, &'a [u8])>, AllocError>
    ensures { IfOk result (λ o. judged_in (left 32 rest.now) ≡ option_map given o) }
{
    let Some((t, rest)) = tid(rest) else {
        return Ok(None)
    };
    let Some((reply, rest)) = reply(rest) else {
        return Ok(None)
    };
    match extra(alloc, rest) {
        Ok(Some((extra, rest))) => Ok(Some((Label::Judged { t, reply, extra }, rest))),
        Ok(None) => Ok(None),
        Err(error) => Err(error),
    }
}

fn gave<'a>(alloc: Global, rest: &'a [u8]) -> Result<Option<(Label, &'a [u8])>, AllocError>
    ensures { IfOk result (λ o. gave_in (left 32 rest.now) ≡ option_map given o) }
{
    let Some((t, rest)) = tid(rest) else {
        return Ok(None)
    };
    match slots(alloc, rest) {
        Ok(Some((slots, rest))) => Ok(Some((Label::Gave { t, slots }, rest))),
        Ok(None) => Ok(None),
        Err(error) => Err(error),
    }
}

fn lent_named<'a>(
    alloc: Global,
    name: &[u8],
    rest: &'a [u8],
) -> Result<Option<(Label, &'a [u8])>, AllocError>
    ensures { IfOk result (λ o. choose lent_forms None name.now (left 32 rest.now) ≡ option_map given o) }
{
    let Some((node, rest)) = small(rest) else {
        return Ok(None)
    };
    let (slots, rest) = match slots(alloc, rest) {
        Ok(Some(read)) => read,
        Ok(None) => return Ok(None),
        Err(error) => return Err(error),
    };
    let node = NodeNo(node);
    if name == b"lent".as_slice() {
        Ok(Some((Label::Lent { to: node, slots }, rest)))
    } else if name == b"inhand".as_slice() {
        Ok(Some((
            Label::InHand {
                lender: node,
                slots,
            },
            rest,
        )))
    } else if name == b"returned".as_slice() {
        Ok(Some((Label::Returned { to: node, slots }, rest)))
    } else {
        Ok(None)
    }
}

fn home<'a>(alloc: Global, rest: &'a [u8]) -> Result<Option<(Label, &'a [u8])>, AllocError>
    ensures { IfOk result (λ o. home_in (left 32 rest.now) ≡ option_map given o) }
{
    match slots(alloc, rest) {
        Ok(Some((slots, rest))) => Ok(Some((Label::Home { slots }, rest))),
        Ok(None) => Ok(None),
        Err(error) => Err(error),
    }
}

fn born(rest: &[u8]) -> Option<(Label, &[u8])>
    ensures { born_in (left 32 rest.now) ≡ option_map given result }
{
    let Some((t, rest)) = tid(rest) else {
        return None
    };
    let Some((why, rest)) = why(rest) else {
        return None
    };
    let Some((entry, rest)) = long(rest) else {
        return None
    };
    let Some((a0, rest)) = long(rest) else {
        return None
    };
    let Some((a1, rest)) = long(rest) else {
        return None
    };
    let Some((sp, rest)) = long(rest) else {
        return None
    };
    let Some((slot, rest)) = short(rest) else {
        return None
    };
    let label = Label::Born {
        t,
        why,
        entry,
        a0,
        a1,
        sp,
        slot: SlotNo(slot),
    };
    Some((label, rest))
}

fn took(rest: &[u8]) -> Option<(Label, &[u8])>
    ensures { took_in (left 32 rest.now) ≡ option_map given result }
{
    let Some((t, rest)) = tid(rest) else {
        return None
    };
    let Some((first, rest)) = short(rest) else {
        return None
    };
    let Some((count, rest)) = short(rest) else {
        return None
    };
    let label = Label::Took {
        t,
        first: SlotNo(first),
        count,
    };
    Some((label, rest))
}

fn departed(rest: &[u8]) -> Option<(Label, &[u8])>
    ensures { left_in (left 32 rest.now) ≡ option_map given result }
{
    let Some((t, rest)) = tid(rest) else {
        return None
    };
    let Some((to, rest)) = small(rest) else {
        return None
    };
    Some((Label::Left { t, to: NodeNo(to) }, rest))
}

fn ended(rest: &[u8]) -> Option<(Label, &[u8])>
    ensures { ended_in (left 32 rest.now) ≡ option_map given result }
{
    let Some((t, rest)) = tid(rest) else {
        return None
    };
    let Some((end, rest)) = end(rest) else {
        return None
    };
    Some((Label::Ended { t, end }, rest))
}

fn decided(rest: &[u8]) -> Option<(Label, &[u8])>
    ensures { decided_in (left 32 rest.now) ≡ option_map given result }
{
    let Some((t, rest)) = tid(rest) else {
        return None
    };
    let Some((count, rest)) = short(rest) else {
        return None
    };
    let Some((first, rest)) = first(rest) else {
        return None
    };
    Some((Label::Decided { t, count, first }, rest))
}

fn dropped(rest: &[u8]) -> Option<(Label, &[u8])>
    ensures { dropped_in (left 32 rest.now) ≡ option_map given result }
{
    let Some((t, rest)) = tid(rest) else {
        return None
    };
    let Some((count, rest)) = word(rest) else {
        return None
    };
    let Some((reply, rest)) = reply(rest) else {
        return None
    };
    Some((Label::Dropped { t, count, reply }, rest))
}

fn bubble_named<'a>(name: &[u8], rest: &'a [u8]) -> Option<(Label, &'a [u8])>
    ensures { choose bubble_forms None name.now (left 32 rest.now) ≡ option_map given result }
{
    let Some((bubble, rest)) = word(rest) else {
        return None
    };
    if name == b"gathered".as_slice() {
        let Some((count, rest)) = word(rest) else {
            return None
        };
        return Some((Label::Gathered { bubble, count }, rest));
    }
    let Some((list, rest)) = small(rest) else {
        return None
    };
    if name == b"down".as_slice() {
        Some((Label::Down { bubble, list }, rest))
    } else if name == b"burst".as_slice() {
        Some((Label::Burst { bubble, list }, rest))
    } else {
        None
    }
}

fn thread_named<'a>(name: &[u8], rest: &'a [u8]) -> Option<(Label, &'a [u8])>
    ensures { choose thread_forms None name.now (left 32 rest.now) ≡ option_map given result }
{
    let Some((t, rest)) = tid(rest) else {
        return None
    };
    if name == b"told".as_slice() {
        Some((Label::Told(t), rest))
    } else if name == b"shown".as_slice() {
        Some((Label::Shown(t), rest))
    } else if name == b"heard".as_slice() {
        Some((Label::Heard(t), rest))
    } else if name == b"known".as_slice() {
        Some((Label::Known(t), rest))
    } else if name == b"came".as_slice() {
        Some((Label::Came(t), rest))
    } else if name == b"halted".as_slice() {
        Some((Label::Halted(t), rest))
    } else {
        None
    }
}

fn plain_named<'a>(name: &[u8], rest: &'a [u8]) -> Option<(Label, &'a [u8])>
    ensures { plain_named name.now (left 32 rest.now) ≡ option_map given result }
{
    if name == b"ran".as_slice() {
        ran(rest)
    } else if name == b"left".as_slice() {
        departed(rest)
    } else if name == b"took".as_slice() {
        took(rest)
    } else if name == b"ended".as_slice() {
        ended(rest)
    } else if name == b"born".as_slice() {
        born(rest)
    } else if name == b"decided".as_slice() {
        decided(rest)
    } else if name == b"dropped".as_slice() {
        dropped(rest)
    } else if name == b"down".as_slice() {
        bubble_named(name, rest)
    } else if name == b"burst".as_slice() {
        bubble_named(name, rest)
    } else if name == b"gathered".as_slice() {
        bubble_named(name, rest)
    } else {
        thread_named(name, rest)
    }
}

/// The label of this name, of the words that are left.
pub(crate) fn label_named<'a>(
    alloc: Global,
    name: &[u8],
    rest: &'a [u8],
) -> Result<Option<(Label, &'a [u8])>, AllocError>
    ensures { IfOk result (λ o. label_named name.now (left 32 rest.now) ≡ option_map given o) }
{
    if name == b"asked".as_slice() {
        asked(alloc, rest)
    } else if name == b"judged".as_slice() {
        judged(alloc, rest)
    } else if name == b"gave".as_slice() {
        gave(alloc, rest)
    } else if name == b"home".as_slice() {
        home(alloc, rest)
    } else if name == b"lent".as_slice() {
        lent_named(alloc, name, rest)
    } else if name == b"inhand".as_slice() {
        lent_named(alloc, name, rest)
    } else if name == b"returned".as_slice() {
        lent_named(alloc, name, rest)
    } else {
        Ok(plain_named(name, rest))
    }
}
