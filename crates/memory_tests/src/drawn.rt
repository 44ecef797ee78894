//! Texts that are nearly those of packed threads: bits flipped and bytes exchanged at drawn places, and some cut off.

use crate::texts::small_text;
use basics::NoMemory;
use pack_thread::{UnpackError, check_packed, pack, unpack};
use raw_slots::Pool;
use std::alloc::Global;
use std::test::Fail;

/// How many texts are drawn.
const DRAWN: u32 = 1_000;

/// A number below 2^31, by a linear congruence.
fn draw(state: &mut u64) -> usize {
    *state = state
        .wrapping_mul(6_364_136_223_846_793_005)
        .wrapping_add(1_442_695_040_888_963_407);
    (*state >> 33) as usize
}

/// Flips a bit, or exchanges two bytes: mostly of the fields, at times of all. The same again brings the text back.
fn change(text: &mut [u8], how: usize, at: usize, other: usize) {
    let most = if how % 8 == 0 { text.len() } else { 300 };
    if most == 0 {
        return;
    }
    let (at, other) = (at % most, other % most);
    if how % 3 == 0 && at < text.len() && other < text.len() {
        text.swap(at, other);
    } else if let Some(byte) = text.get_mut(at) {
        *byte ^= 1 << (other % 8) as u32;
    }
}

/// Whether both calls refuse it at one place within it, or it is the text of the thread that it gives.
fn is_alike(alloc: Global, text: &[u8], pool: &mut Pool) -> Result<bool, NoMemory> {
    match unpack(alloc, text, pool) {
        Ok(thread) => {
            let again = pack(alloc, &thread)?;
            Ok(check_packed(text).is_none() && again.as_slice() == text)
        }
        Err(UnpackError::BadImage { offset }) => {
            Ok(check_packed(text) == Some(offset) && offset <= text.len() as u64)
        }
        Err(UnpackError::NoMemory) => Err(NoMemory),
    }
}

/// The number of the first drawn text of which the calls say another thing.
fn first_that_differs(
    alloc: Global,
    text: &mut [u8],
    mut state: u64,
) -> Result<Option<u32>, NoMemory> {
    let mut pool = Pool::new(alloc);
    for number in 0..DRAWN {
        let (how, at, other) = (draw(&mut state), draw(&mut state), draw(&mut state));
        change(text, how, at, other);
        let left = if how % 4 == 1 { at % 400 } else { text.len() };
        if !is_alike(alloc, text.get(..left).unwrap_or(&[]), &mut pool)? {
            return Ok(Some(number));
        }
        change(text, how, at, other);
    }
    Ok(None)
}

#[test]
fn drawn_texts_are_refused_or_taken_alike(rt: HostRuntime) -> Result<(), Fail> {
    let mut text = small_text(rt.alloc())?;
    let seed = 20_261_202;
    assert_eq!(rt; first_that_differs(rt.alloc(), &mut text, seed)?, None);
    Ok(())
}
