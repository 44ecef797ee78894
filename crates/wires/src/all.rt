//! All links of the ends of all nodes.

ghost use Rattle.std.specs.Prelude.{◌<◌, length, IsOk};
ghost use Rattle.wires.specs.Link.{IsInOrder, IsSettled, BothBecome, OwnBecomes};
ghost use Rattle.wires.specs.Pairs.{PairChanged, SelfChanged};
ghost use Rattle.wires.specs.Wires.{AreWired, AreInOrder, AreSettled, CarriedNoMore};

use crate::ends;
use crate::ends::Ends;
use basics::NoMemory;

/// Settles all links, as `settle` does those between two nodes. It takes no memory and always succeeds.
pub fn settle_all<P: Drop>(nodes: &mut [Ends<P>]) -> Result<(), NoMemory>
    requires { AreWired nodes.old }
    ensures ok { IsOk result }
    ensures wired { AreWired nodes.new }
    ensures same { CarriedNoMore nodes.old nodes.new }
    ensures settled { AreSettled nodes.new }
{
    let count = nodes.len();
    for j in 0..count {
        for i in 0..j {
            settle_pair(nodes, i, j)?;
        }
        settle_self(nodes, j)?;
    }
    Ok(())
}

pub(crate) fn settle_pair<P: Drop>(
    nodes: &mut [Ends<P>],
    i: usize,
    j: usize,
) -> Result<(), NoMemory>
    requires places { (i < j) × (j < length nodes.old) }
    requires wired { AreWired nodes.old }
    ensures ok { IsOk result }
    ensures settled { PairChanged i j (BothBecome IsSettled) nodes.old nodes.new }
{
    let (front, back) = nodes.split_at_mut(j);
    ends::settle(&mut front[i], &mut back[0])
}

pub(crate) fn settle_self<P: Drop>(nodes: &mut [Ends<P>], i: usize) -> Result<(), NoMemory>
    requires place { i < length nodes.old }
    requires wired { AreWired nodes.old }
    ensures ok { IsOk result }
    ensures settled { SelfChanged i (OwnBecomes IsSettled) nodes.old nodes.new }
{
    nodes[i].settle_own()
}

/// Looks at all links, as `look` does at those between two nodes.
pub fn look_all<P: Drop>(nodes: &mut [Ends<P>])
    requires { AreWired nodes.old }
    ensures wired { AreWired nodes.new }
    ensures same { CarriedNoMore nodes.old nodes.new }
    ensures order { AreInOrder nodes.new }
{
    let count = nodes.len();
    for j in 0..count {
        for i in 0..j {
            look_pair(nodes, i, j);
        }
        look_self(nodes, j);
    }
}

fn look_pair<P: Drop>(nodes: &mut [Ends<P>], i: usize, j: usize)
    requires places { (i < j) × (j < length nodes.old) }
    requires wired { AreWired nodes.old }
    ensures { PairChanged i j (BothBecome IsInOrder) nodes.old nodes.new }
{
    let (front, back) = nodes.split_at_mut(j);
    ends::look(&mut front[i], &mut back[0]);
}

fn look_self<P: Drop>(nodes: &mut [Ends<P>], i: usize)
    requires place { i < length nodes.old }
    requires wired { AreWired nodes.old }
    ensures { SelfChanged i (OwnBecomes IsInOrder) nodes.old nodes.new }
{
    nodes[i].look_own();
}
