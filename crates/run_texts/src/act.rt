//! What a line of a schedule says.

ghost use Rattle.std.specs.Prelude.{◌≡◌};
ghost use Rattle.run_texts.specs.Parts.{words_of};
ghost use Rattle.run_texts.specs.Acts.{act_in, move_in, node_in, run_in, said_in, said_plainly, said_words, take_in, tid_in};

use crate::number::number_in;
use crate::parts::{next_word, place_of, without_carriage_return};
use run_trace::Act;
use slot_space::{NodeNo, Tid};

/// What a line of a schedule says.
#[derive(Clone, Copy)]
pub(crate) enum Said {
    Nothing,
    /// It isn't of the grammar.
    Bad,
    /// This act on this node.
    Act(NodeNo, Act),
}

/// A node's number, of so many nodes.
fn node_in(nodes: u8, text: &[u8]) -> Option<NodeNo>
    ensures { result ≡ node_in nodes text.now }
{
    let Some(node) = number_in(0, nodes as u64, text) else {
        return None
    };
    Some(NodeNo(node as u8))
}

/// A thread's name.
#[tactic(auto, unfolding(crate::specs::Acts::tid_in, crate::specs::Parts::number_in))]
fn tid_in(nodes: u8, text: &[u8]) -> Option<Tid>
    ensures { result ≡ tid_in nodes text.now }
{
    let dot = place_of(b'.', text);
    if dot == text.len() {
        return None;
    }
    let Some(home) = node_in(nodes, &text[..dot]) else {
        return None
    };
    let Some(seq) = number_in(0, 0x1_0000_0000, &text[dot + 1..]) else {
        return None
    };
    Some(Tid {
        home,
        seq: seq as u32,
    })
}

/// A processor, of so many, and a quantum.
fn run_in(processors: u8, words: &[u8]) -> Option<Act>
    ensures { result ≡ run_in processors (words_of words.now) }
{
    let Some((vp, rest)) = next_word(words) else {
        return None
    };
    let Some((quantum, rest)) = next_word(rest) else {
        return None
    };
    if next_word(rest).is_some() {
        return None;
    }
    let Some(vp) = number_in(0, processors as u64, vp) else {
        return None
    };
    let Some(quantum) = number_in(1, 65537, quantum) else {
        return None
    };
    Some(Act::Run(vp as u8, quantum as u32))
}

/// The sender's node.
fn take_in(nodes: u8, words: &[u8]) -> Option<Act>
    ensures { result ≡ take_in nodes (words_of words.now) }
{
    let Some((sender, rest)) = next_word(words) else {
        return None
    };
    if next_word(rest).is_some() {
        return None;
    }
    let Some(sender) = node_in(nodes, sender) else {
        return None
    };
    Some(Act::Take(sender))
}

/// A thread, and another node.
fn move_in(nodes: u8, node: NodeNo, words: &[u8]) -> Option<Act>
    ensures { result ≡ move_in nodes node (words_of words.now) }
{
    let Some((t, rest)) = next_word(words) else {
        return None
    };
    let Some((to, rest)) = next_word(rest) else {
        return None
    };
    if next_word(rest).is_some() {
        return None;
    }
    let Some(t) = tid_in(nodes, t) else {
        return None
    };
    let Some(to) = node_in(nodes, to) else {
        return None
    };
    if to.0 == node.0 {
        None
    } else {
        Some(Act::Move(t, to))
    }
}

/// An act of this name on this node.
fn act_in(nodes: u8, processors: u8, node: NodeNo, name: &[u8], words: &[u8]) -> Option<Act>
    ensures { result ≡ act_in nodes processors node name.now (words_of words.now) }
{
    if name == b"run".as_slice() {
        run_in(processors, words)
    } else if name == b"take".as_slice() {
        take_in(nodes, words)
    } else if name == b"move".as_slice() {
        move_in(nodes, node, words)
    } else {
        None
    }
}

/// What an act's words say.
fn said_words(nodes: u8, processors: u8, line: &[u8]) -> Said
    ensures { result ≡ said_words nodes processors (words_of line.now) }
{
    let Some((name, rest)) = next_word(line) else {
        return Said::Bad
    };
    let Some((node, rest)) = next_word(rest) else {
        return Said::Bad
    };
    let Some(node) = node_in(nodes, node) else {
        return Said::Bad
    };
    match act_in(nodes, processors, node, name, rest) {
        Some(act) => Said::Act(node, act),
        None => Said::Bad,
    }
}

fn said_plainly(nodes: u8, processors: u8, line: &[u8]) -> Said
    ensures { result ≡ said_plainly nodes processors line.now }
{
    if line.is_empty() || line[0] == b'#' || next_word(line).is_none() {
        return Said::Nothing;
    }
    if line[0] == b' ' {
        return Said::Bad;
    }
    said_words(nodes, processors, line)
}

/// What a line says, where there are so many nodes, each with so many processors.
pub(crate) fn said_in(nodes: u8, processors: u8, line: &[u8]) -> Said
    ensures { result ≡ said_in nodes processors line.now }
{
    said_plainly(nodes, processors, without_carriage_return(line))
}
