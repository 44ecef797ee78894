//! A schedule, written.

ghost use Rattle.std.specs.Prelude.{◌≡◌, ◌≤◌, ◌++◌, ◌∷◌, ℕ, length, map, IfOk, OnOk, Ok};
ghost use Rattle.trace_text.specs.Words.{word_text};
ghost use Rattle.trace_text.specs.Lines.{line_text};
ghost use Rattle.run_texts.specs.Schedules.{most_acts, schedule_of};
ghost use Rattle.run_texts.specs.Written.{AreInRange, act_words, line_or_nothing, numbered, schedule_text};

use basics::NoMemory;
use run_trace::{Act, Entry};
use slot_space::NodeNo;
use std::alloc::{AllocError, Global};
use trace_text::{Word, push_words};

/// Appends a line of a name and words behind it.
fn push_line(out: &mut Vec<u8>, name: &[u8], words: &[Word]) -> Result<(), AllocError>
    ensures { OnOk result (out.new.items ≡ out.old.items ++ line_text (name.now ∷ map word_text words.now)) }
{
    out.extend_from_slice(name)?;
    push_words(out, words)?;
    out.extend_from_slice(b"\n")
}

/// Appends the line of an act.
#[tactic(auto, unfolding(crate::specs::Written::act_words))]
fn push_act(out: &mut Vec<u8>, node: NodeNo, act: &Act) -> Result<(), AllocError>
    ensures { OnOk result (out.new.items ≡ out.old.items ++ line_or_nothing (act_words node act.now)) }
{
    match act {
        Act::Boot => Ok(()),
        Act::Run(vp, quantum) => push_line(
            out,
            b"run",
            &[
                Word::Number(node.0 as u64),
                Word::Number(*vp as u64),
                Word::Number(*quantum as u64),
            ],
        ),
        Act::Take(sender) => push_line(
            out,
            b"take",
            &[Word::Number(node.0 as u64), Word::Number(sender.0 as u64)],
        ),
        Act::Move(t, to) => push_line(
            out,
            b"move",
            &[
                Word::Number(node.0 as u64),
                Word::Thread(t),
                Word::Number(to.0 as u64),
            ],
        ),
    }
}

fn lines_of_acts(alloc: Global, trace: &[Entry]) -> Result<Vec<u8>, NoMemory>
    ensures { IfOk result (λ text. text.items ≡ schedule_text trace.now) }
{
    let mut out = Vec::new(alloc);
    for entry in trace {
        push_act(&mut out, entry.node, &entry.act)?;
    }
    Ok(out)
}

/// The acts of a trace as a schedule, without the nodes' beginnings.
#[tactic(auto, using(crate::proofs::Again::read_again))]
pub fn schedule_text(alloc: Global, trace: &[Entry]) -> Result<Vec<u8>, NoMemory>
    ensures text { IfOk result (λ text. text.items ≡ schedule_text trace.now) }

    // What was written is read again, where the acts are in range and not too many.
    ensures again { IfOk result (λ text. (nodes processors : ℕ) → nodes ≤ 8 → processors ≤ 16 → AreInRange nodes processors trace.now → length (numbered 1 trace.now) ≤ most_acts
        → schedule_of nodes processors text.items ≡ Ok (numbered 1 trace.now)) }
{
    lines_of_acts(alloc, trace)
}
