//! The text of a trace of yields: KIND is make (the trace alone), write (its text too) or read (the text read as well), COUNT the
//! entries. The number is how many entries were made, bytes written or entries read.

use anyhow::{Result, bail};
use basics::Items;
use run_trace::{Act, Entry, Extra, Label, Labels};
use rv_step::Stop;
use slot_space::{NodeNo, Tid};
use std::alloc::{AllocError, Global};
use trace_text::{read_trace, trace_text};

fn tid(seq: u32) -> Tid {
    Tid {
        home: NodeNo(0),
        seq,
    }
}

/// The entry of a run in which a thread yields.
fn entry(alloc: Global, number: u32) -> Result<Entry, AllocError> {
    let mut labels = Vec::new(alloc);
    labels.push(Label::Ran {
        t: tid(number),
        vp: 0,
        count: 3,
        stop: Stop::Call,
    })?;
    labels.push(Label::Asked {
        t: tid(number),
        call: 5,
        args: Items::new(Vec::new(alloc)),
        bytes: Items::new(Vec::new(alloc)),
    })?;
    labels.push(Label::Judged {
        t: tid(number),
        reply: 0,
        extra: Extra::Nothing,
    })?;
    labels.push(Label::Told(tid(number)))?;
    Ok(Entry {
        stamp: u64::from(number),
        node: NodeNo(0),
        round: u64::from(number),
        act: Act::Run(0, 1000),
        labels: Labels::new(alloc, Items::new(labels))?,
    })
}

fn trace(alloc: Global, entries: u32) -> Result<Vec<Entry>, AllocError> {
    let mut trace = Vec::new(alloc);
    for number in 0..entries {
        trace.push(entry(alloc, number)?)?;
    }
    Ok(trace)
}

fn written(alloc: Global, trace: &[Entry], rounds: u32) -> Result<u64> {
    let mut sum = 0u64;
    for _ in 0..rounds {
        sum = sum.wrapping_add(trace_text(alloc, trace)?.len() as u64);
    }
    Ok(sum)
}

fn entries_of(alloc: Global, text: &[u8]) -> Result<u64> {
    if text.len() >= 0xffff_ffff {
        bail!("too long");
    }
    Ok(read_trace(alloc, text)?.as_slice().len() as u64)
}

fn read(alloc: Global, text: &[u8], rounds: u32) -> Result<u64> {
    let mut sum = 0u64;
    for _ in 0..rounds {
        sum = sum.wrapping_add(entries_of(alloc, text)?);
    }
    Ok(sum)
}

pub fn measured(alloc: Global, kind: &str, entries: u32, rounds: u32) -> Result<u64> {
    let trace = trace(alloc, entries)?;
    match kind {
        "make" => Ok(trace.len() as u64),
        "write" => written(alloc, &trace, rounds),
        "read" => read(alloc, &trace_text(alloc, &trace)?, rounds),
        _ => bail!("KIND is make, write or read"),
    }
}
