//! The image of a source.

ghost use Rattle.std.specs.Prelude.{◌≡◌, ◌<◌, ◌≤◌, ◌+◌, ◌*◌, ◌%◌, ◌^◌, ◌++◌, ℕ, List, None, map, length, codes, IfOk, OnOk};
ghost use Rattle.std.specs.Option.{option_to_list};
ghost use Rattle.rv_inst.specs.Image.{IsWellFormed};
ghost use Rattle.asm_list.specs.Listing.{HasShortAddresses};
ghost use Rattle.asm_text.specs.Slots.{seen};
ghost use Rattle.asm_text.specs.Lines.{line_seen};
ghost use Rattle.asm_targets.specs.Labels.{mark_in, service_in, service_seen};
ghost use Rattle.rv_asm.specs.Layout.{IsReadable, base, limit, end_of, label_among, service_among};
ghost use Rattle.rv_asm.specs.Faults.{first_fault};
ghost use Rattle.rv_asm.specs.Bytes.{all_bytes, address_of};
ghost use Rattle.rv_asm.specs.Images.{stub, filled, service_row, services_below, services_of, main_at, image_bytes, image_from, faultless_image, image_with, image_of_lines, image_of, Assembles};

use crate::emitting::{address_of, push_lines};
use crate::error::AsmError;
use crate::faults::first_fault;
use crate::layout::{end_of, labels_of, services_of};
use asm_targets::{Labels, Mark, Services, mark_in, service_in};
use asm_text::{Reading, read_source};
use basics::Items;
use rv_inst::{IMAGE_LIMIT, IMAGE_START, Image};
use std::alloc::{AllocError, Global};

/// The most bytes of a source and of an image.
const LIMIT: u64 = IMAGE_LIMIT;

/// `addi a7, x0, 1` and `ecall`.
const STUB: [u8; 8] = [0x93, 0x08, 0x10, 0x00, 0x73, 0x00, 0x00, 0x00];

/// Where the main thread starts.
fn main_at(mark: Option<Mark>) -> Option<u64>
    ensures { result ≡ main_at mark }
{
    match mark {
        Some(mark) if mark.address % 4 == 0 => Some(mark.address),
        _ => None,
    }
}

/// Appends zeros up to a multiple of 4.
fn fill(bytes: &mut Vec<u8>) -> Result<(), AllocError>
    ensures { OnOk result (bytes.new.items ≡ filled bytes.old.items) }
{
    let zeros = [0u8; 3];
    bytes.extend_from_slice(&zeros[..(4 - bytes.len() % 4) % 4])
}

/// The service of a number, if it is given, and where its label stands.
fn service_row(labels: &Labels<'_>, services: &Services<'_>, number: u8) -> Option<(u8, u64)>
    ensures { result ≡ service_row (mark_in labels.now) (service_in services.now) number }
{
    let service = service_in(services, number)?;
    Some((number, address_of(labels, service.label)))
}

/// Appends the service of a number, if it is given.
fn push_service(
    table: &mut Vec<(u8, u64)>,
    labels: &Labels<'_>,
    services: &Services<'_>,
    number: u8,
) -> Result<(), AllocError>
    ensures { OnOk result (table.new.items ≡ table.old.items ++ option_to_list (service_row (mark_in labels.now) (service_in services.now) number)) }
{
    if let Some(row) = service_row(labels, services, number) {
        table.push(row)?;
    }
    Ok(())
}

/// The services of numbers below some count, each with the address of its label.
#[tactic(auto, using(crate::proofs::Services::one_below))]
fn services_below(
    alloc: Global,
    count: u16,
    labels: &Labels<'_>,
    services: &Services<'_>,
) -> Result<Vec<(u8, u64)>, AllocError>
    requires { count ≤ 256 }
    ensures { IfOk result (λ v. v.items ≡ services_below count (mark_in labels.now) (service_in services.now)) }
{
    let mut table = Vec::new(alloc);
    for number in 0..count {
        push_service(&mut table, labels, services, number as u8)?;
    }
    Ok(table)
}

/// The bytes of the image.
fn image_bytes(
    alloc: Global,
    labels: &Labels<'_>,
    readings: &[Reading<'_>],
) -> Result<Vec<u8>, AllocError>
    requires { IsReadable readings.now }
    ensures { IfOk result (λ v. v.items ≡ filled (image_bytes (mark_in labels.now) (map (seen line_seen) readings.now))) }
{
    let mut bytes = Vec::new(alloc);
    bytes.extend_from_slice(&STUB)?;
    push_lines(&mut bytes, labels, readings)?;
    fill(&mut bytes)?;
    Ok(bytes)
}

/// The image of lines without a fault that starts at an address.
fn image_from(
    alloc: Global,
    labels: &Labels<'_>,
    services: &Services<'_>,
    readings: &[Reading<'_>],
    main: u64,
) -> Result<Image, AsmError>
    requires readable { IsReadable readings.now }
    requires given { (n : ℕ) → service_in services.now n ≡ service_among 1 (map (seen line_seen) readings.now) n }
    requires faultless { first_fault (mark_in labels.now) (service_in services.now) 1 base (map (seen line_seen) readings.now) ≡ None }
    requires placed { (w : List ℕ) → mark_in labels.now w ≡ label_among 1 base (map (seen line_seen) readings.now) w }
    requires start { main % 4 ≡ 0 }
    requires start_in { main ≤ end_of base (map (seen line_seen) readings.now) }
    ensures exact { Assembles result (image_from (mark_in labels.now) (service_in services.now) (map (seen line_seen) readings.now) main) }
    ensures well_formed { IfOk result IsWellFormed }
    ensures short { IfOk result HasShortAddresses }
{
    if end_of(readings) - IMAGE_START > LIMIT {
        return Err(AsmError::TooLong);
    }
    let bytes = image_bytes(alloc, labels, readings)?;
    let table = services_below(alloc, 256, labels, services)?;
    Ok(Image {
        bytes: Items::new(bytes),
        main,
        services: Items::new(table),
    })
}

/// The image of lines with these labels and services.
#[tactic(auto, using(crate::proofs::Answered::same), unfolding(crate::specs::Images::image_with))]
fn image_with(
    alloc: Global,
    labels: &Labels<'_>,
    services: &Services<'_>,
    readings: &[Reading<'_>],
) -> Result<Image, AsmError>
    requires readable { IsReadable readings.now }
    requires given { (n : ℕ) → service_in services.now n ≡ service_among 1 (map (seen line_seen) readings.now) n }
    requires placed { (w : List ℕ) → mark_in labels.now w ≡ label_among 1 base (map (seen line_seen) readings.now) w }
    ensures exact { Assembles result (image_with (mark_in labels.now) (service_in services.now) (map (seen line_seen) readings.now)) }
    ensures well_formed { IfOk result IsWellFormed }
    ensures short { IfOk result HasShortAddresses }
{
    if let Some(fault) = first_fault(labels, services, readings) {
        return Err(fault);
    }
    match main_at(mark_in(labels, b"main")) {
        Some(main) => image_from(alloc, labels, services, readings, main),
        None => Err(AsmError::NoMain),
    }
}

/// The image of lines.
fn image_of_lines(alloc: Global, readings: &[Reading<'_>]) -> Result<Image, AsmError>
    requires { IsReadable readings.now }
    ensures exact { Assembles result (image_of_lines (map (seen line_seen) readings.now)) }
    ensures well_formed { IfOk result IsWellFormed }
    ensures short { IfOk result HasShortAddresses }
{
    let labels = labels_of(alloc, readings)?;
    let services = services_of(alloc, readings)?;
    image_with(alloc, &labels, &services, readings)
}

/// The image of a source, or the fault that counts.
pub fn assemble(alloc: Global, source: &[u8]) -> Result<Image, AsmError>
    ensures exact { Assembles result (image_of source.now) }
    ensures well_formed { IfOk result IsWellFormed }
    ensures short { IfOk result HasShortAddresses }
{
    if source.len() as u64 > LIMIT {
        return Err(AsmError::TooLong);
    }
    let readings = read_source(alloc, source)?;
    image_of_lines(alloc, &readings)
}
