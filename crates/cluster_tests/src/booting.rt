//! Nodes that begin with a program of a few words.

ghost use Rattle.std.specs.Prelude.{◌≡◌, IfOk};
ghost use Rattle.node_state.specs.Events.{StartsAligned};
ghost use Rattle.cluster_tests.specs.Rounds.{IsInRounds};
ghost use Rattle.cluster_tests.specs.Walks.{IsWalked};

use basics::{Items, NoMemory};
use cluster::Cluster;
use levels::Tree;
use run_trace::Setup;
use rv_inst::Image;
use slot_space::Geometry;
use std::alloc::Global;
use std::test::Fail;
use wires::Wires;

/// So many nodes with so many slots; a run has at most a thousand instructions.
pub(crate) fn setup(nodes: u8, slots: u16) -> Result<Setup, Fail>
    ensures { IfOk result (λ s. (s.geometry.nodes ≡ nodes) × (s.quantum ≡ 1000)) }
{
    let geometry = Geometry::new(nodes, slots).ok_or("within the limits")?;
    Ok(Setup {
        geometry,
        tree: Tree::new(1, None).ok_or("a tree")?,
        quantum: 1000,
    })
}

/// The stub and the words.
pub(crate) fn image(alloc: Global, words: &[u32]) -> Result<Image, NoMemory>
    ensures { IfOk result StartsAligned }
{
    let mut bytes = Vec::new(alloc);
    bytes.extend_from_slice(&0x0010_0893u32.to_le_bytes())?;
    bytes.extend_from_slice(&0x0000_0073u32.to_le_bytes())?;
    for word in words {
        bytes.extend_from_slice(&word.to_le_bytes())?;
    }
    Ok(Image {
        bytes: Items::new(bytes),
        main: 0x10008,
        services: Items::new(Vec::new(alloc)),
    })
}

/// Two nodes with the program of these words.
pub(crate) fn booted(alloc: Global, words: &[u32]) -> Result<Cluster, Fail>
    ensures walked { IfOk result IsWalked }
    ensures in_rounds { IfOk result IsInRounds }
{
    let setup = setup(2, 8)?;
    let image = image(alloc, words)?;
    let wires = Wires::new(alloc, 2)?;
    Ok(Cluster::boot(alloc, &setup, image, wires)?)
}
