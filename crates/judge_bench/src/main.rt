//! Reads a source and traces of it, and says of each trace whether it is legal, or which of its entries is the first that isn't.
//! Its words are SOURCE NODES SLOTS QUANTUM TRACE... `bench/many_runs` gives it what `run` has written.
#![tactic(auto)]

use anyhow::{Context, Result, bail};
use levels::Tree;
use outside::{RealShelf, Shelf};
use run_judge::judge;
use run_trace::Setup;
use rv_asm::assemble;
use rv_inst::Image;
use slot_space::Geometry;
use std::alloc::Global;
use std::env;
use trace_text::read_trace;

/// The longest file that is read, in bytes.
const LIMIT: u64 = 1 << 30;

/// The number of the first entry that isn't legal in the trace of this text, if there is one.
fn fault_in(alloc: Global, setup: &Setup, image: &Image, text: &[u8]) -> Result<Option<usize>> {
    if text.len() >= 0xffff_ffff {
        bail!("too long");
    }
    // Each image of a source begins its main function so.
    if image.main % 4 != 0 {
        bail!("no image");
    }
    let trace = read_trace(alloc, text)?;
    Ok(judge(alloc, setup, image, trace.as_slice())?)
}

fn main(rt: HostRuntime) -> Result<()> {
    let alloc = rt.alloc();
    let mut shelf = RealShelf::new(&rt);
    let mut words = env::args(&rt)?.skip(1);
    let source = words.next().context("SOURCE")?;
    let nodes = words.next().context("NODES")?;
    let slots = words.next().context("SLOTS")?;
    let quantum = words.next().context("QUANTUM")?;
    let nodes = nodes.as_str().parse::<u8>().context("NODES")?;
    let slots = slots.as_str().parse::<u16>().context("SLOTS")?;
    let setup = Setup {
        geometry: Geometry::new(nodes, slots).context("NODES and SLOTS")?,
        tree: Tree::new(1, None).context("a tree")?,
        quantum: quantum.as_str().parse::<u32>().context("QUANTUM")?,
    };
    let source = shelf
        .read_file(alloc, source.as_str(), LIMIT)
        .ok()
        .context("a source")?;
    let image = assemble(alloc, &source).ok().context("an image")?;
    for name in words {
        let text = shelf
            .read_file(alloc, name.as_str(), LIMIT)
            .ok()
            .context("a trace")?;
        match fault_in(alloc, &setup, &image, &text)? {
            None => println!(rt; "{name} legal")?,
            Some(entry) => println!(rt; "{name} isn't legal at entry {entry}")?,
        }
    }
    Ok(())
}
