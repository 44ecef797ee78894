//! Where each line stands, and what it gives a place to.

ghost use Rattle.std.specs.Prelude.{◌≡◌, ◌<◌, ◌≤◌, ◌+◌, ◌-◌, ◌*◌, ◌%◌, ◌^◌, ℕ, List, length, map, IfOk, OnOk, Option, Some, None, option_map, if◌then◌else◌};
ghost use Rattle.std.specs.Option.{option_or};
ghost use Rattle.asm_text.specs.Slots.{seen};
ghost use Rattle.asm_text.specs.Statements.{statement_seen, IsSound};
ghost use Rattle.asm_text.specs.Lines.{line_seen, HasSound};
ghost use Rattle.asm_targets.specs.Labels.{mark_in, service_in, service_seen};
ghost use Rattle.rv_asm.specs.Layout.{IsReadable, base, limit, width_len, padding, size_at, line_size, label_in, statement_in, gives_label, label_among, service_by, service_among, end_of};

use asm_targets::{Labels, Mark, Service, Services, add_label, add_service, number_count};
use asm_text::{Line, Reading, Statement, Width};
use rv_inst::IMAGE_START;
use std::alloc::{AllocError, Global};
use std::collections::BTreeMap;

/// Where the first line stands: behind the stub.
pub const FIRST: Mark = Mark {
    line: 1,
    address: IMAGE_START + 8,
};

fn width_len(width: Width) -> u64
    ensures value { result ≡ width_len width }
    ensures small { result ≤ 8 }
{
    match width {
        Width::Byte => 1,
        Width::Word => 4,
        Width::Dword => 8,
    }
}

/// How many zeros stand from an address up to the next multiple of 2^k.
pub fn padding(k: u8, address: u64) -> u64
    requires { k < 16 }
    ensures value { result ≡ padding k address }
    ensures small { result < 2 ^ 16 }
{
    let unit = 1u64 << k;
    (unit - address % unit) % unit
}

/// How many bytes a statement has at an address.
fn size_at(address: u64, statement: &Statement<'_>) -> u64
    requires { IsSound limit (statement_seen statement.now) }
    ensures value { result ≡ size_at address (statement_seen statement.now) }
    ensures small { result ≤ 2 ^ 23 }
{
    match statement {
        Statement::Plain(_) | Statement::Branch { .. } | Statement::Jump { .. } => 4,
        Statement::LoadNumber { number, .. } => 4 * number_count(*number),
        Statement::LoadAddress { .. } => 8,
        Statement::Values { width, values } => width_len(*width) * values.len() as u64,
        Statement::Bytes(bytes) => bytes.len() as u64,
        Statement::Align(k) => padding(*k, address),
        Statement::Service { .. } | Statement::Nothing => 0,
    }
}

/// How many bytes a line has at an address.
fn line_size(address: u64, reading: &Reading<'_>) -> u64
    requires { HasSound limit (seen line_seen reading.now) }
    ensures value { result ≡ line_size address (seen line_seen reading.now) }
    ensures small { result ≤ 2 ^ 23 }
{
    match reading {
        Ok(
            Line {
                statement: Some(statement),
                ..
            },
        ) => size_at(address, statement),
        _ => 0,
    }
}

/// Where the line behind a line stands.
pub fn after(mark: Mark, reading: &Reading<'_>) -> Mark
    requires few { mark.line < 2 ^ 31 }
    requires room { mark.address < 2 ^ 62 }
    requires sound { HasSound limit (seen line_seen reading.now) }
    ensures line { result.line ≡ mark.line + 1 }
    ensures address { result.address ≡ mark.address + line_size mark.address (seen line_seen reading.now) }
    ensures near { result.address ≤ mark.address + 2 ^ 23 }
{
    Mark {
        line: mark.line + 1,
        address: mark.address + line_size(mark.address, reading),
    }
}

/// Keeps the place of a line's label, if it has one.
fn add_label_of<'s>(
    labels: &mut Labels<'s>,
    mark: Mark,
    reading: &Reading<'s>,
) -> Result<(), AllocError>
    ensures { OnOk result ((w : List ℕ) → mark_in labels.new w ≡ option_or (mark_in labels.old w) (if gives_label (seen line_seen reading.now) w then Some mark else None)) }
{
    match reading {
        Ok(
            Line {
                label: Some(name),
                ..
            },
        ) => add_label(labels, name, mark),
        _ => Ok(()),
    }
}

/// The places of the labels of these lines.
pub fn labels_of<'s>(alloc: Global, readings: &[Reading<'s>]) -> Result<Labels<'s>, AllocError>
    requires { IsReadable readings.now }
    ensures { IfOk result (λ m. (w : List ℕ) → mark_in m w ≡ label_among 1 base (map (seen line_seen) readings.now) w) }
{
    let mut labels = BTreeMap::new(alloc);
    let mut mark = FIRST;
    for reading in readings {
        add_label_of(&mut labels, mark, reading)?;
        mark = after(mark, reading);
    }
    Ok(labels)
}

/// Keeps the place of the service that a line gives, if it gives one.
fn add_service_of<'s>(
    services: &mut Services<'s>,
    line: u32,
    reading: &Reading<'s>,
) -> Result<(), AllocError>
    ensures { OnOk result ((n : ℕ) → service_in services.new n ≡ option_or (service_in services.old n) (service_by (statement_in (seen line_seen reading.now)) n line)) }
{
    match reading {
        Ok(
            Line {
                statement: Some(Statement::Service { number, label }),
                ..
            },
        ) => add_service(services, *number, Service { line, label }),
        _ => Ok(()),
    }
}

/// The services that these lines give.
pub fn services_of<'s>(alloc: Global, readings: &[Reading<'s>]) -> Result<Services<'s>, AllocError>
    requires { length readings.now ≤ 2 ^ 21 }
    ensures { IfOk result (λ m. (n : ℕ) → service_in m n ≡ service_among 1 (map (seen line_seen) readings.now) n) }
{
    let mut services = BTreeMap::new(alloc);
    let mut line = 1;
    for reading in readings {
        add_service_of(&mut services, line, reading)?;
        line += 1;
    }
    Ok(services)
}

/// The address behind these lines.
pub fn end_of(readings: &[Reading<'_>]) -> u64
    requires { IsReadable readings.now }
    ensures value { result ≡ end_of base (map (seen line_seen) readings.now) }
    ensures behind { base ≤ result }
{
    let mut mark = FIRST;
    for reading in readings {
        mark = after(mark, reading);
    }
    mark.address
}
