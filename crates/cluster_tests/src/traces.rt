//! Whole traces that are known from outside, and each with one thing wrong, before the judge.
//! What the judge finds legal the machine does exactly, and so does a node (the clause `turned` of its turns).

use crate::booting::{image, setup};
use basics::Items;
use run_judge::judge;
use run_trace::Entry;
use std::alloc::Global;
use std::test::Fail;
use trace_text::read_trace;

/// A trace of one node.
struct Known {
    /// The words of the image behind the stub.
    words: &'static [u32],
    slots: u16,
    trace: &'static str,
    wrong: &'static [Wrong],
}

/// A piece of the trace, where it stands first, what stands there in its place, and the entry at which that is found.
type Wrong = (&'static str, &'static str, usize);

/// It prints hi and returns.
pub(crate) const HI: [u32; 7] = [
    0x0000_0517,
    0x0185_0513,
    0x0020_0593,
    0x0100_0893,
    0x0000_0073,
    0x0000_8067,
    0x0000_6968,
];

/// It creates a thread that returns 7, joins it and returns.
const JOINS: [u32; 9] = [
    0x0000_0517,
    0x0205_0513,
    0x0070_0593,
    0x0030_0613,
    0x0060_0893,
    0x0000_0073,
    0x0070_0893,
    0x0000_0073,
    0x0000_8067,
];

/// It creates a thread that joins it, and joins that one.
const WAITS: [u32; 12] = [
    0x0000_0517,
    0x0245_0513,
    0x0000_0593,
    0x0030_0613,
    0x0060_0893,
    0x0000_0073,
    0x0070_0893,
    0x0000_0073,
    0x0000_8067,
    0x0070_0893,
    0x0000_0073,
    0x0000_8067,
];

/// It creates a thread and returns. That one creates a thread, which returns, and returns.
const CLAIMS: [u32; 14] = [
    0x0000_0517,
    0x01c5_0513,
    0x0000_0593,
    0x0030_0613,
    0x0060_0893,
    0x0000_0073,
    0x0000_8067,
    0x0000_0517,
    0x0185_0513,
    0x0000_0593,
    0x0030_0613,
    0x0060_0893,
    0x0000_0073,
    0x0000_8067,
];

/// It jumps to itself.
const LOOPS: [u32; 1] = [0x0000_006f];

const KNOWN: [Known; 6] = [
    Known {
        words: &HI,
        slots: 256,
        trace: "@ 1 0 0 boot
born 0.0 main 65544 0 0 4295032832 0
@ 2 0 1 run 0 1000
ran 0.0 0 4 call
asked 0.0 print 65568 2 6869
@ 3 0 2 take 0
shown 0.0
judged 0.0 0
@ 4 0 3 take 0
told 0.0
@ 5 0 4 run 0 1000
ran 0.0 0 2 call
asked 0.0 exit 0
gave 0.0 0
ended 0.0 exit 0
@ 6 0 5 take 0
known 0.0
",
        wrong: &[
            ("shown 0.0\n", "", 2),
            ("told 0.0\n", "told 0.0\ntold 0.0\n", 3),
            ("ran 0.0 0 4", "ran 0.0 0 5", 1),
            ("judged 0.0 0", "judged 0.0 1", 2),
            ("shown 0.0\njudged 0.0 0\n", "judged 0.0 0\nshown 0.0\n", 2),
            ("@ 4 0 3", "@ 3 0 3", 3),
            ("@ 3 0 2 take 0", "@ 3 0 2 boot", 2),
            ("@ 2 0 1 run 0 1000", "@ 2 0 1 take 0", 1),
            ("6869", "686f", 1),
            ("@ 6 0 5", "@ 6 0 3", 5),
            ("judged 0.0 0\n", "judged 0.0 0\ntold 0.0\n", 2),
        ],
    },
    Known {
        words: &JOINS,
        slots: 256,
        trace: "@ 1 0 0 boot
born 0.0 main 65544 0 0 4295032832 0
@ 2 0 1 run 0 1000
ran 0.0 0 5 call
asked 0.0 create 65576 7 3
born 0.1 create 0.0 65576 7 0 4295098368 1
judged 0.0 1
told 0.0
@ 3 0 2 run 0 1000
ran 0.1 0 2 call
asked 0.1 exit 7
gave 0.1 1
ended 0.1 exit 7
@ 4 0 3 run 0 1000
ran 0.0 0 1 call
asked 0.0 join 1
@ 5 0 4 take 0
known 0.1
@ 6 0 5 take 0
heard 0.0
judged 0.0 0 7
@ 7 0 6 take 0
told 0.0
@ 8 0 7 run 0 1000
ran 0.0 0 2 call
asked 0.0 exit 0
gave 0.0 0
ended 0.0 exit 0
@ 9 0 8 take 0
known 0.0
",
        wrong: &[
            ("born 0.1 create 0.0 65576 7 0 4295098368 1\n", "", 1),
            ("told 0.0\n", "told 0.0\nknown 0.1\n", 1),
            ("ran 0.1 0 2", "ran 0.1 0 3", 2),
            ("judged 0.0 1", "judged 0.0 2", 1),
            ("judged 0.0 0 7", "judged 0.0 0 8", 5),
            (
                "heard 0.0\njudged 0.0 0 7\n",
                "judged 0.0 0 7\nheard 0.0\n",
                5,
            ),
            ("@ 6 0 5", "@ 5 0 5", 5),
            ("@ 4 0 3 run 0 1000", "@ 4 0 3 boot", 3),
            ("@ 2 0 1 run 0 1000", "@ 2 0 1 take 0", 1),
            ("asked 0.1 exit 7", "asked 0.1 exit 8", 2),
            ("4295098368 1", "4295163904 2", 1),
            ("gave 0.1 1", "gave 0.1 0", 2),
        ],
    },
    Known {
        words: &JOINS,
        slots: 1,
        trace: "@ 1 0 0 boot
born 0.0 main 65544 0 0 4295032832 0
@ 2 0 1 run 0 1000
ran 0.0 0 5 call
asked 0.0 create 65576 7 3
@ 3 0 2 take 0
@ 4 0 3 take 0
decided 0.0 1 -
judged 0.0 -4
told 0.0
@ 5 0 4 take 0
@ 6 0 5 run 0 1000
ran 0.0 0 1 call
asked 0.0 join 18446744073709551612
judged 0.0 -2
told 0.0
@ 7 0 6 run 0 1000
ran 0.0 0 2 call
asked 0.0 exit 18446744073709551614
gave 0.0 0
ended 0.0 exit 18446744073709551614
@ 8 0 7 take 0
known 0.0
",
        wrong: &[
            ("7 3\n", "7 3\njudged 0.0 -4\ntold 0.0\n", 1),
            (
                "7 3\n",
                "7 3\ndecided 0.0 1 -\njudged 0.0 -4\ntold 0.0\n",
                1,
            ),
            ("@ 3 0 2 take 0\n", "", 2),
            ("decided 0.0 1 -\n", "", 3),
            ("decided 0.0 1 -", "decided 0.0 2 -", 3),
            ("decided 0.0 1 -", "decided 0.0 1 0", 3),
            ("judged 0.0 -4\ntold 0.0\n", "", 3),
            ("decided 0.0 1 -\njudged 0.0 -4\ntold 0.0\n", "", 3),
            ("told 0.0\n", "told 0.0\ndecided 0.0 1 -\n", 3),
            ("@ 4 0 3", "@ 3 0 3", 3),
        ],
    },
    Known {
        words: &CLAIMS,
        slots: 2,
        trace: "@ 1 0 0 boot
born 0.0 main 65544 0 0 4295032832 0
@ 2 0 1 run 0 1000
ran 0.0 0 5 call
asked 0.0 create 65572 0 3
born 0.1 create 0.0 65572 0 0 4295098368 1
judged 0.0 1
told 0.0
@ 3 0 2 run 0 1000
ran 0.1 0 5 call
asked 0.1 create 65596 0 3
@ 4 0 3 run 0 1000
ran 0.0 0 2 call
asked 0.0 exit 1
gave 0.0 0
ended 0.0 exit 1
@ 5 0 4 take 0
@ 6 0 5 take 0
known 0.0
@ 7 0 6 take 0
born 0.2 create 0.1 65596 0 0 4295032832 0
judged 0.1 2
told 0.1
@ 8 0 7 run 0 1000
ran 0.2 0 2 call
asked 0.2 exit 0
gave 0.2 0
ended 0.2 exit 0
@ 9 0 8 run 0 1000
ran 0.1 0 2 call
asked 0.1 exit 2
gave 0.1 1
ended 0.1 exit 2
@ 10 0 9 take 0
@ 11 0 10 take 0
known 0.2
@ 12 0 11 take 0
known 0.1
",
        wrong: &[
            (
                "ended 0.0 exit 1\n",
                "ended 0.0 exit 1\nborn 0.2 create 0.1 65596 0 0 4295032832 0\n",
                3,
            ),
            ("@ 6 0 5 take 0\nknown 0.0\n", "", 5),
            (
                "born 0.2 create 0.1 65596 0 0 4295032832 0\njudged 0.1 2\n",
                "decided 0.1 1 -\njudged 0.1 -4\n",
                6,
            ),
            ("born 0.2 create 0.1", "born 0.2 create 0.0", 6),
            ("65596 0 0 4295032832 0", "65596 0 0 4295098368 1", 6),
            ("judged 0.1 2\ntold 0.1\n", "", 6),
            ("@ 10 0 9 take 0\n", "", 9),
        ],
    },
    Known {
        words: &WAITS,
        slots: 256,
        trace: "@ 1 0 0 boot
born 0.0 main 65544 0 0 4295032832 0
@ 2 0 1 run 0 1000
ran 0.0 0 5 call
asked 0.0 create 65580 0 3
born 0.1 create 0.0 65580 0 0 4295098368 1
judged 0.0 1
told 0.0
@ 3 0 2 run 0 1000
ran 0.1 0 1 call
asked 0.1 join 0
@ 4 0 3 run 0 1000
ran 0.0 0 1 call
asked 0.0 join 1
@ 5 0 4 take 0
heard 0.1
@ 6 0 5 take 0
heard 0.0
",
        wrong: &[
            ("heard 0.1\n", "", 4),
            ("heard 0.1\n", "heard 0.1\njudged 0.1 0 0\n", 4),
            ("ran 0.1 0 1", "ran 0.1 0 2", 2),
            ("judged 0.0 1", "judged 0.0 0", 1),
            ("judged 0.0 1\ntold 0.0\n", "told 0.0\njudged 0.0 1\n", 1),
            ("told 0.0\n", "", 1),
            ("@ 6 0 5", "@ 5 0 5", 5),
            ("@ 3 0 2 run 0 1000", "@ 3 0 2 boot", 2),
            ("@ 2 0 1 run 0 1000", "@ 2 0 1 take 0", 1),
            ("@ 4 0 3 run 0 1000", "@ 4 0 3 take 0", 3),
            ("asked 0.1 join 0", "asked 0.1 join 1", 2),
            ("heard 0.0\n", "heard 0.0\njudged 0.0 -2\n", 5),
        ],
    },
    Known {
        words: &LOOPS,
        slots: 256,
        trace: "@ 1 0 0 boot
born 0.0 main 65544 0 0 4295032832 0
@ 2 0 1 run 0 1000
ran 0.0 0 1000 quantum
@ 3 0 2 run 0 1000
ran 0.0 0 1000 quantum
@ 4 0 3 run 0 1000
ran 0.0 0 1000 quantum
@ 5 0 4 run 0 1000
ran 0.0 0 1000 quantum
@ 6 0 5 run 0 1000
ran 0.0 0 1000 quantum
@ 7 0 6 run 0 1000
ran 0.0 0 1000 quantum
@ 8 0 7 run 0 1000
ran 0.0 0 1000 quantum
@ 9 0 8 run 0 1000
ran 0.0 0 1000 quantum
@ 10 0 9 run 0 1000
ran 0.0 0 1000 quantum
@ 11 0 10 run 0 1000
ran 0.0 0 1000 quantum
",
        wrong: &[],
    },
];

/// The entries of a trace text.
#[tactic(auto, using(trace_text::proofs::Lemmas::few_lines))]
fn entries(alloc: Global, text: &str) -> Result<Items<Entry>, Fail> {
    let text = text.as_bytes();
    if text.len() >= 0xffff_ffff {
        return Err(Fail::from("a short text"));
    }
    Ok(read_trace(alloc, text)?)
}

/// What the judge says of these entries.
fn fault(alloc: Global, known: &Known, entries: &[Entry]) -> Result<Option<usize>, Fail> {
    let setup = setup(1, known.slots)?;
    let image = image(alloc, known.words)?;
    Ok(judge(alloc, &setup, &image, entries)?)
}

/// Whether the trace with that wrong is refused at its entry.
fn is_found(alloc: Global, known: &Known, wrong: &Wrong) -> Result<bool, Fail> {
    let (before, after) = known
        .trace
        .split_once(wrong.0)
        .ok_or("a piece of the trace")?;
    let text = format!(in alloc; "{before}{}{after}", wrong.1)?;
    let entries = entries(alloc, text.as_str())?;
    Ok(fault(alloc, known, entries.as_slice())? == Some(wrong.2))
}

/// Whether the trace is legal, and all that is wrong is found.
fn is_judged(alloc: Global, known: &Known) -> Result<bool, Fail> {
    for wrong in known.wrong {
        if !is_found(alloc, known, wrong)? {
            return Ok(false);
        }
    }
    let entries = entries(alloc, known.trace)?;
    Ok(fault(alloc, known, entries.as_slice())?.is_none())
}

fn are_judged(alloc: Global) -> Result<bool, Fail> {
    for known in &KNOWN {
        if !is_judged(alloc, known)? {
            return Ok(false);
        }
    }
    Ok(true)
}

#[test]
fn one_thing_wrong_is_found_at_its_entry(rt: HostRuntime) -> Result<(), Fail> {
    assert!(rt; are_judged(rt.alloc())?);
    Ok(())
}
