//! The listing of an image.

ghost use Rattle.std.specs.Prelude.{◌≡◌, ◌+◌, ◌*◌, ◌/◌, ◌<◌, ◌≤◌, ◌^◌, ◌++◌, ℕ, All, length, IfOk, OnOk};
ghost use Rattle.std.specs.List.{flat_map};
ghost use Rattle.rv_inst.specs.Image.{IsWellFormed, image_limit};
ghost use Rattle.asm_list.specs.Listing.{service_line, line_at, word_lines, listing, HasShortAddresses};

use crate::lines::{push_main, push_service, push_word};
use basics::NoMemory;
use rv_inst::{IMAGE_START, Image};
use std::alloc::{AllocError, Global};

/// Appends the lines of services, whose addresses are below 2^32.
fn push_services(out: &mut Vec<u8>, services: &[(u8, u64)]) -> Result<(), AllocError>
    requires { All (λ service. service.1 < 2 ^ 32) services.now }
    ensures { OnOk result (out.new.items ≡ out.old.items ++ flat_map service_line services.now) }
{
    for service in services {
        push_service(out, service.0, service.1 as u32)?;
    }
    Ok(())
}

/// Appends the line of the word at an index, counted in words, where the image has that word.
fn push_word_at(out: &mut Vec<u8>, image: &Image, index: u64) -> Result<(), AllocError>
    requires { index < 2 ^ 18 }
    ensures { OnOk result (out.new.items ≡ out.old.items ++ line_at image.now.bytes index) }
{
    let address = IMAGE_START + 4 * index;
    match image.word(address) {
        Some(word) => push_word(out, address as u32, word),
        None => Ok(()),
    }
}

/// Appends the lines of the words of an image.
fn push_words(out: &mut Vec<u8>, image: &Image) -> Result<(), AllocError>
    requires { length image.now.bytes ≤ image_limit }
    ensures { OnOk result (out.new.items ≡ out.old.items ++ word_lines image.now.bytes) }
{
    for index in 0..image.len() / 4 {
        push_word_at(out, image, index)?;
    }
    Ok(())
}

/// The listing of a well-formed image whose addresses are below 2^32.
pub fn list(alloc: Global, image: &Image) -> Result<Vec<u8>, NoMemory>
    requires well_formed { IsWellFormed image.now }
    requires short { HasShortAddresses image.now }
    ensures { IfOk result (λ text. text.items ≡ listing image.now) }
{
    let mut out = Vec::new(alloc);
    push_main(&mut out, image.main as u32)?;
    push_services(&mut out, image.services.as_slice())?;
    push_words(&mut out, image)?;
    Ok(out)
}
