//! Where labels and services are given first.

ghost use Rattle.std.specs.Prelude.{◌≡◌, ◌==◌, ℕ, List, OnOk, Option, Some, None, if◌then◌else◌, option_map};
ghost use Rattle.std.specs.Option.{option_or};
ghost use Rattle.std.specs.Str.{bytes_eq};
ghost use Rattle.asm_targets.specs.Labels.{mark_in, service_in, service_seen};

use std::alloc::AllocError;
use std::collections::BTreeMap;

/// The line that gives a label, and its address.
#[derive(Clone, Copy)]
pub struct Mark {
    pub line: u32,
    pub address: u64,
}

/// The line that gives a service, and its label.
#[derive(Clone, Copy)]
pub struct Service<'s> {
    pub line: u32,
    pub label: &'s [u8],
}

/// The labels of a source.
pub type Labels<'s> = BTreeMap<&'s [u8], Mark>;

/// The services of a source.
pub type Services<'s> = BTreeMap<u8, Service<'s>>;

/// Where a label is given.
pub fn mark_in(labels: &Labels<'_>, name: &[u8]) -> Option<Mark>
    ensures { result ≡ mark_in labels.now name.now }
{
    labels.get(name).copied()
}

/// Gives a label its place, unless it has one.
pub fn add_label<'s>(labels: &mut Labels<'s>, name: &'s [u8], mark: Mark) -> Result<(), AllocError>
    ensures { OnOk result ((w : List ℕ) → mark_in labels.new w ≡ option_or (mark_in labels.old w) (if bytes_eq name.now w then Some mark else None)) }
{
    if mark_in(labels, name).is_none() {
        labels.insert(name, mark)?;
    }
    Ok(())
}

/// Where a service is given.
pub fn service_in<'s>(services: &Services<'s>, number: u8) -> Option<Service<'s>>
    ensures { option_map service_seen result ≡ service_in services.now number }
{
    services.get(&number).copied()
}

/// Gives a service its place, unless it has one.
pub fn add_service<'s>(
    services: &mut Services<'s>,
    number: u8,
    service: Service<'s>,
) -> Result<(), AllocError>
    ensures { OnOk result ((n : ℕ) → service_in services.new n ≡ option_or (service_in services.old n) (if number == n then Some (service_seen service.entry) else None)) }
{
    if service_in(services, number).is_none() {
        services.insert(number, service)?;
    }
    Ok(())
}
