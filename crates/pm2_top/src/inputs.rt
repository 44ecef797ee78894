//! What a command is done on.

ghost use Rattle.std.specs.Prelude.{◌≡◌, ◌≤◌, ◌⊎◌, OnOk, IfOk, IfSome, length, IsErrOf, MatchResult};
ghost use Rattle.outside.specs.Outside.{Rose, Lacks, file_at};
ghost use Rattle.pm2_top.specs.Asked.{LacksAny, MayBeGiven, MayBeRead, schedule_limit};

use crate::status::Status;
use basics::{Items, NoMemory};
use outside::{ReadRefusal, Shelf};
use run_texts::stress_source;
use settings::{Command, Name};
use std::alloc::Global;

/// The longest source in bytes.
const SOURCE_LIMIT: u64 = 1_048_576;

/// The longest schedule in bytes.
const SCHEDULE_LIMIT: u64 = 33_554_432;

/// What was read for a command. A file that is too long is none.
#[derive(Drop)]
pub(crate) struct Inputs {
    pub(crate) source: Option<Items<u8>>,
    /// The schedule of `replay`; none for all other commands.
    pub(crate) schedule: Option<Items<u8>>,
}

/// Reads a file, or nothing where it is longer than the limit.
fn read_text<S: Shelf>(
    alloc: Global,
    name: &Name,
    limit: u64,
    shelf: &mut S,
) -> Result<Option<Items<u8>>, Status>
    ensures read { MatchResult result (λ text. MayBeRead limit (file_at (S.content shelf.old) name.now) text)
        (λ status. (status ≡ Status.ReadFault) ⊎ (status ≡ Status.NoMemory)) }
    ensures fault { IsErrOf result Status.ReadFault → Lacks (S.content shelf.old) name.now ⊎ Rose (S.read_faults shelf.old) (S.read_faults shelf.new) }
    ensures missing { Lacks (S.content shelf.old) name.now → OnOk result ⊥ }
    ensures uncounted { OnOk result (S.read_faults shelf.new ≡ S.read_faults shelf.old) }
    ensures uncounted_memory { IsErrOf result Status.NoMemory → S.read_faults shelf.new ≡ S.read_faults shelf.old }
    ensures reads { S.read_faults shelf.old ≤ S.read_faults shelf.new }
    ensures files { S.content shelf.new ≡ S.content shelf.old }
    ensures writes { S.write_faults shelf.new ≡ S.write_faults shelf.old }
{
    match shelf.read_file(alloc, name.as_str(), limit) {
        Ok(bytes) => Ok(Some(Items::new(bytes))),
        Err(ReadRefusal::TooLarge) => Ok(None),
        Err(ReadRefusal::Missing) => Err(Status::ReadFault),
        Err(ReadRefusal::Failed) => Err(Status::ReadFault),
        Err(ReadRefusal::NoMemory) => Err(Status::NoMemory),
    }
}

/// Reads the files of a command, the source first; the source of `stress` is made.
pub(crate) fn read_inputs<S: Shelf>(
    alloc: Global,
    command: &Command,
    shelf: &mut S,
) -> Result<Inputs, Status>
    ensures given { MatchResult result (λ inputs. MayBeGiven (S.content shelf.old) command.now inputs.source inputs.schedule)
        (λ status. (status ≡ Status.ReadFault) ⊎ (status ≡ Status.NoMemory)) }
    ensures within { IfOk result (λ inputs. IfSome inputs.schedule (λ bytes. length bytes ≤ schedule_limit)) }
    ensures fault { IsErrOf result Status.ReadFault → LacksAny (S.content shelf.old) command.now ⊎ Rose (S.read_faults shelf.old) (S.read_faults shelf.new) }
    ensures missing { LacksAny (S.content shelf.old) command.now → OnOk result ⊥ }
    ensures uncounted { OnOk result (S.read_faults shelf.new ≡ S.read_faults shelf.old) }
    ensures uncounted_memory { IsErrOf result Status.NoMemory → S.read_faults shelf.new ≡ S.read_faults shelf.old }
    ensures reads { S.read_faults shelf.old ≤ S.read_faults shelf.new }
    ensures files { S.content shelf.new ≡ S.content shelf.old }
    ensures writes { S.write_faults shelf.new ≡ S.write_faults shelf.old }
{
    match command {
        Command::Asm(file) => Ok(Inputs {
            source: read_text(alloc, file, SOURCE_LIMIT, shelf)?,
            schedule: None,
        }),
        Command::Run(file) => Ok(Inputs {
            source: read_text(alloc, file, SOURCE_LIMIT, shelf)?,
            schedule: None,
        }),
        Command::Sim(file) => Ok(Inputs {
            source: read_text(alloc, file, SOURCE_LIMIT, shelf)?,
            schedule: None,
        }),
        Command::Replay(file, acts) => {
            let source = read_text(alloc, file, SOURCE_LIMIT, shelf)?;
            let schedule = read_text(alloc, acts, SCHEDULE_LIMIT, shelf)?;
            Ok(Inputs { source, schedule })
        }
        Command::Stress(jobs) => match stress_source(alloc, *jobs) {
            Ok(source) => Ok(Inputs {
                source: Some(Items::new(source)),
                schedule: None,
            }),
            Err(NoMemory) => Err(Status::NoMemory),
        },
    }
}
