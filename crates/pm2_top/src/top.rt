//! The top call.

ghost use Rattle.std.specs.Prelude.{◌≡◌, ◌≢◌, ◌≤◌, ◌⊎◌, ℕ, List, false, true, length, Err, None, Some, IfSome, IfOk, map};
ghost use Rattle.std.specs.String.{string_bytes};
ghost use Rattle.outside.specs.Outside.{Rose};
ghost use Rattle.rv_asm.specs.declared.error.AsmError.{AsmError as Refused};
ghost use Rattle.rv_inst.specs.Image.{IsWellFormed};
ghost use Rattle.asm_list.specs.Listing.{HasShortAddresses, listing};
ghost use Rattle.rv_asm.specs.Images.{Assembles, image_of};
ghost use Rattle.run_texts.specs.Schedules.{Reads};
ghost use Rattle.node_state.specs.Events.{StartsAligned, program};
ghost use Rattle.rv_inst.specs.declared.image.Image.{Image as Assembled};
ghost use Rattle.wires.specs.Wires.{AreFreshFor};
ghost use Rattle.settings.specs.Settings.{settings_of};
ghost use Rattle.settings.specs.Seen.{chosen, IsWithinLimits};
ghost use Rattle.simulation.specs.Schedules.{AreInRange};
ghost use Rattle.levels.specs.Trees.{processors};
ghost use Rattle.pm2_top.specs.Asked.{LacksAny, acts_in, acts_of, image_in, schedule_in, source_in, schedule_limit};
ghost use Rattle.pm2_top.specs.Delivery.{is_told, HasFiles, LeavesFiles, Leaves, KeepsCount, CountsNoOther};
ghost use Rattle.pm2_top.specs.Outcome.{IsUnlessMemory, IsUsual, MayBeNoSource, MayBeNoSchedule, HasSource, Lists, HasRunAs, DrawnBy, InRounds, HasReplayed, HasSourceEnded, HasRun, HasObeyed, HasEnded, IsTraceOf, IsCarriedOut, node_limit};
ghost use Rattle.pm2_top.specs.Texts.{Reports};
ghost use Rattle.pm2_top.specs.declared.report.Report.{Report as Ended};

use crate::delivery::tell_all;
use crate::inputs::{Inputs, read_inputs};
use crate::report::Report;
use crate::status::Status;
use crate::texts::tell;
use basics::Items;
use node_loop::Gate;
use outside::{Shelf, Sink, write_piece};
use run_texts::{Scheduled, read_schedule, schedules_fit};
use run_trace::{Packet, Setup};
use rv_asm::{AsmError, assemble, list};
use rv_inst::Image;
use settings::{Command, Settings, WordsError, settings};
use simulation::{replay, run_in_rounds, simulate};
use std::alloc::Global;
use std::thread::Threads;
use trace_text::TextError;
use wires::Wires;

/// Writes the listing of an image.
#[tactic(auto, using(crate::proofs::Ran::none_yet))]
fn list_image<K: Sink>(alloc: Global, image: &Image, out: &mut K) -> Status
    requires well_formed { IsWellFormed image.now }
    requires short { HasShortAddresses image.now }
    ensures lists { Lists (listing image.now) (K.written out.old) (K.written out.new) result }
    ensures failed { result ≡ Status.WriteFault → Rose (K.faults out.old) (K.faults out.new) }
    ensures uncounted { result ≢ Status.WriteFault → K.faults out.new ≡ K.faults out.old }
    ensures later { K.faults out.old ≤ K.faults out.new }
{
    let text = match list(alloc, image) {
        Ok(text) => text,
        Err(_) => return Status::NoMemory,
    };
    match write_piece(out, &text) {
        Ok(()) => Status::Done,
        Err(refusal) => Status::from(refusal),
    }
}

/// Runs an image in the order that the seed draws.
fn simulate_image<K: Sink>(
    alloc: Global,
    asked: &Settings,
    image: Image,
    wires: Wires<Packet>,
    out: &mut K,
) -> Report
    requires limits { IsWithinLimits asked.now }
    requires image { StartsAligned image }
    requires fresh { AreFreshFor node_limit wires }
    ensures simulated { HasRunAs (DrawnBy asked.now.moves asked.now.turns asked.now.seed) (chosen asked.now) image wires (K.written out.old) (K.written out.new) result }
    ensures failed { result.status ≡ Status.WriteFault → Rose (K.faults out.old) (K.faults out.new) }
    ensures later { K.faults out.old ≤ K.faults out.new }
{
    Report::of_run(simulate(
        alloc,
        &asked.setup,
        image,
        asked.turns,
        asked.seed,
        asked.moves,
        wires,
        out,
    ))
}

/// Runs an image, all nodes side by side.
fn run_image<R: Threads + Sync, K: Sink, G: Gate>(
    rt: &R,
    alloc: Global,
    asked: &Settings,
    image: Image,
    wires: Wires<Packet>,
    out: &mut K,
    gate: &G,
) -> Report
    requires limits { IsWithinLimits asked.now }
    requires image { StartsAligned image }
    requires fresh { AreFreshFor node_limit wires }
    ensures ran { HasRunAs (InRounds asked.now.turns) (chosen asked.now) image wires (K.written out.old) (K.written out.new) result }
    ensures failed { result.status ≡ Status.WriteFault → Rose (K.faults out.old) (K.faults out.new) }
    ensures later { K.faults out.old ≤ K.faults out.new }
{
    Report::of_run(run_in_rounds(
        rt,
        alloc,
        &asked.setup,
        image,
        asked.turns,
        wires,
        out,
        gate,
    ))
}

/// The acts of a schedule that was read.
fn acts_in(
    alloc: Global,
    setup: &Setup,
    schedule: &Option<Items<u8>>,
) -> Result<Items<Scheduled>, TextError>
    requires within { IfSome schedule.now (λ bytes. length bytes ≤ schedule_limit) }
    ensures reads { Reads result (acts_in setup.now.geometry.nodes (processors setup.now.tree) schedule.now) }
    ensures fine { (image : Assembled) → IfOk result (λ acts. (length acts ≤ 1000000) × AreInRange (program setup.now image) acts) }
{
    match schedule {
        None => Err(TextError::BadLine { line: 0 }),
        Some(text) => {
            schedules_fit();
            read_schedule(alloc, text.as_slice(), setup)
        }
    }
}

/// Runs an image by the acts of a schedule.
fn replay_image<K: Sink>(
    alloc: Global,
    asked: &Settings,
    schedule: &Option<Items<u8>>,
    image: Image,
    wires: Wires<Packet>,
    out: &mut K,
) -> Report
    requires limits { IsWithinLimits asked.now }
    requires within { IfSome schedule.now (λ bytes. length bytes ≤ schedule_limit) }
    requires image { StartsAligned image }
    requires fresh { AreFreshFor node_limit wires }
    ensures replayed { HasReplayed (chosen asked.now) (acts_in asked.now.setup.geometry.nodes (processors asked.now.setup.tree) schedule.now) image wires (K.written out.old) (K.written out.new) result }
    ensures failed { result.status ≡ Status.WriteFault → Rose (K.faults out.old) (K.faults out.new) }
    ensures later { K.faults out.old ≤ K.faults out.new }
{
    let acts = match acts_in(alloc, &asked.setup, schedule) {
        Ok(acts) => acts,
        Err(TextError::BadLine { line }) => return Report::plain(
            alloc,
            Status::BadScheduleText(line),
            wires,
        ),
        Err(TextError::NoMemory) => return Report::plain(alloc, Status::NoMemory, wires),
    };
    Report::of_run(replay(alloc, &asked.setup, image, acts.as_slice(), wires, out))
}

/// The image of a source that was read.
fn image_in(alloc: Global, source: &Option<Items<u8>>) -> Result<Image, AsmError>
    ensures exact { Assembles result (image_in source.now) }
    ensures well_formed { IfOk result IsWellFormed }
    ensures short { IfOk result HasShortAddresses }
{
    match source {
        None => Err(AsmError::TooLong),
        Some(source) => assemble(alloc, source.as_slice()),
    }
}

/// Assembles a source, and lists its image or runs it.
fn do_inputs<R: Threads + Sync, K: Sink, G: Gate>(
    rt: &R,
    alloc: Global,
    asked: &Settings,
    inputs: &Inputs,
    wires: Wires<Packet>,
    out: &mut K,
    gate: &G,
) -> Report
    requires limits { IsWithinLimits asked.now }
    requires within { IfSome inputs.now.schedule (λ bytes. length bytes ≤ schedule_limit) }
    requires fresh { AreFreshFor node_limit wires }
    ensures ending { HasSourceEnded (chosen asked.now) (image_in inputs.now.source) (acts_in asked.now.setup.geometry.nodes (processors asked.now.setup.tree) inputs.now.schedule)
        wires (K.written out.old) (K.written out.new) result }
    ensures failed { result.status ≡ Status.WriteFault → Rose (K.faults out.old) (K.faults out.new) }
    ensures later { K.faults out.old ≤ K.faults out.new }
{
    let image = match image_in(alloc, &inputs.source) {
        Ok(image) => image,
        Err(AsmError::NoMemory) => return Report::plain(alloc, Status::NoMemory, wires),
        Err(error) => return Report::plain(alloc, Status::BadSource(error), wires),
    };
    match &asked.command {
        Command::Asm(_) => {
            let status = list_image(alloc, &image, out);
            Report::plain(alloc, status, wires)
        }
        Command::Run(_) => run_image(rt, alloc, asked, image, wires, out, gate),
        Command::Sim(_) => simulate_image(alloc, asked, image, wires, out),
        Command::Replay(_, _) => replay_image(alloc, asked, &inputs.schedule, image, wires, out),
        Command::Stress(_) => run_image(rt, alloc, asked, image, wires, out, gate),
    }
}

/// Reads the files and does with them what is asked for.
fn run_asked<R: Threads + Sync, S: Shelf, K: Sink, G: Gate>(
    rt: &R,
    alloc: Global,
    asked: &Settings,
    shelf: &mut S,
    wires: Wires<Packet>,
    out: &mut K,
    gate: &G,
) -> Report
    requires limits { IsWithinLimits asked.now }
    requires fresh { AreFreshFor node_limit wires }
    ensures ran { HasRun (S.content shelf.old) (chosen asked.now) wires (K.written out.old) (K.written out.new) result }
    ensures read { result.status ≡ Status.ReadFault → LacksAny (S.content shelf.old) asked.now.command ⊎ Rose (S.read_faults shelf.old) (S.read_faults shelf.new) }
    ensures missing { LacksAny (S.content shelf.old) asked.now.command → IsUnlessMemory result.status Status.ReadFault }
    ensures uncounted { result.status ≢ Status.ReadFault → S.read_faults shelf.new ≡ S.read_faults shelf.old }
    ensures failed { result.status ≡ Status.WriteFault → Rose (K.faults out.old) (K.faults out.new) }
    ensures later { K.faults out.old ≤ K.faults out.new }
    ensures files { S.content shelf.new ≡ S.content shelf.old }
    ensures writes { S.write_faults shelf.new ≡ S.write_faults shelf.old }
{
    match read_inputs(alloc, &asked.command, shelf) {
        Ok(inputs) => do_inputs(rt, alloc, asked, &inputs, wires, out, gate),
        Err(status) => Report::plain(alloc, status, wires),
    }
}

/// Does what is asked for, and tells what is asked for.
fn do_asked<R: Threads + Sync, S: Shelf, K: Sink, G: Gate>(
    rt: &R,
    alloc: Global,
    asked: &Settings,
    shelf: &mut S,
    wires: Wires<Packet>,
    out: &mut K,
    gate: &G,
) -> Report
    requires limits { IsWithinLimits asked.now }
    requires fresh { AreFreshFor node_limit wires }
    ensures obeyed { HasObeyed (S.content shelf.old) (chosen asked.now) wires (K.written out.old) (K.written out.new) result }
    ensures read { result.status ≡ Status.ReadFault → LacksAny (S.content shelf.old) asked.now.command ⊎ Rose (S.read_faults shelf.old) (S.read_faults shelf.new) }
    ensures missing { LacksAny (S.content shelf.old) asked.now.command → IsUnlessMemory result.status Status.ReadFault }
    ensures failed { result.status ≡ Status.WriteFault → Rose (K.faults out.old) (K.faults out.new) ⊎ Rose (S.write_faults shelf.old) (S.write_faults shelf.new) }
    ensures unasked { asked.now.trace ≡ None → asked.now.schedule ≡ None → S.write_faults shelf.new ≡ S.write_faults shelf.old }
    ensures counted { CountsNoOther result.status (S.read_faults shelf.old) (S.read_faults shelf.new) (S.write_faults shelf.old) (S.write_faults shelf.new) }
    ensures put { is_told result.status ≡ true → HasFiles (chosen asked.now) result.trace (S.content shelf.old) (S.content shelf.new) }
    ensures left { LeavesFiles (chosen asked.now) result.trace (Rose (S.write_faults shelf.old) (S.write_faults shelf.new)) (S.content shelf.old) (S.content shelf.new) }
{
    let ran = run_asked(rt, alloc, asked, shelf, wires, out, gate);
    tell_all(alloc, asked, ran, shelf, out)
}

/// Does what the words ask for.
fn obey<R: Threads + Sync, S: Shelf, K: Sink, G: Gate>(
    rt: &R,
    alloc: Global,
    words: &[String],
    shelf: &mut S,
    wires: Wires<Packet>,
    out: &mut K,
    gate: &G,
) -> Report
    requires fresh { AreFreshFor node_limit wires }
    ensures ended { HasEnded (S.content shelf.old) (settings_of (map string_bytes words.now)) wires (K.written out.old) (K.written out.new) result }
    ensures read { result.status ≡ Status.ReadFault → IfSome (settings_of (map string_bytes words.now)) (λ asked.
        LacksAny (S.content shelf.old) asked.command ⊎ Rose (S.read_faults shelf.old) (S.read_faults shelf.new)) }
    ensures missing { IfSome (settings_of (map string_bytes words.now)) (λ asked.
        LacksAny (S.content shelf.old) asked.command → IsUnlessMemory result.status Status.ReadFault) }
    ensures failed { result.status ≡ Status.WriteFault → Rose (K.faults out.old) (K.faults out.new) ⊎ Rose (S.write_faults shelf.old) (S.write_faults shelf.new) }
    ensures counted { CountsNoOther result.status (S.read_faults shelf.old) (S.read_faults shelf.new) (S.write_faults shelf.old) (S.write_faults shelf.new) }
    ensures put { is_told result.status ≡ true → IfSome (settings_of (map string_bytes words.now)) (λ asked.
        HasFiles asked result.trace (S.content shelf.old) (S.content shelf.new)) }
    ensures left { Leaves (settings_of (map string_bytes words.now)) result.trace (Rose (S.write_faults shelf.old) (S.write_faults shelf.new))
        (S.content shelf.old) (S.content shelf.new) }
    ensures unasked { KeepsCount (settings_of (map string_bytes words.now)) (S.write_faults shelf.old) (S.write_faults shelf.new) }
{
    match settings(alloc, words) {
        Ok(asked) => do_asked(rt, alloc, &asked, shelf, wires, out, gate),
        Err(WordsError::Usage) => Report::plain(alloc, Status::Usage, wires),
        Err(WordsError::NoMemory) => Report::plain(alloc, Status::NoMemory, wires),
    }
}

/// The whole program: it reads the files that the words name, and lists the image of the source or runs it, in an order that is
/// drawn, by a schedule, or with all nodes side by side, and shows the lines. Behind them stands the summary, and the trace and its acts go to files, each where
/// it is asked for. What is wrong, and each fault of a thread, is told on the error output. The packets go over the links that are
/// given.
pub fn pm2_main<R: Threads + Sync, S: Shelf, K: Sink, E: Sink, G: Gate>(
    rt: &R,
    alloc: Global,
    words: &[String],
    shelf: &mut S,
    out: &mut K,
    err: &mut E,
    wires: Wires<Packet>,
    gate: &G,
) -> Report
    requires wires { AreFreshFor node_limit wires }

    // How it has ended: the output has the listing, or the lines of the trace and the summary, or at a refused write a first part of
    // them, and the error output the text of it. A failed read or write of a file is counted only where it has ended so: status 7 may
    // stand for such an end where there was no memory for its text, and then the error output has the line of want of memory.
    ensures ended { (ended : Ended) × HasEnded (S.content shelf.old) (settings_of (map string_bytes words.now)) wires (K.written out.old) (K.written out.new) ended
        × Reports E.takes_memory ended result (E.written err.old) (E.written err.new) (E.faults err.old) (E.faults err.new)
        × CountsNoOther ended.status (S.read_faults shelf.old) (S.read_faults shelf.new) (S.write_faults shelf.old) (S.write_faults shelf.new) }

    // Whatever the order of events, the trace is legal: each slot has one holder, each thread's registers, memory and output are
    // those of its code run alone with the replies that it got, each reply is the library's.
    ensures legal { IfSome (settings_of (map string_bytes words.now)) (λ asked. IsTraceOf (S.content shelf.old) asked result.trace) }

    // The links are for as many nodes as a cluster may have. They have carried exactly the packets that the trace sends and
    // takes, and nothing where nothing has run.
    ensures carried { IsCarriedOut (S.content shelf.old) (settings_of (map string_bytes words.now)) result }

    ensures usage { result.status ≡ Status.Usage → settings_of (map string_bytes words.now) ≡ None }
    ensures no_settings { settings_of (map string_bytes words.now) ≡ None → IsUnlessMemory result.status Status.Usage }

    // A file isn't there, or a read has failed.
    ensures read { result.status ≡ Status.ReadFault → IfSome (settings_of (map string_bytes words.now)) (λ asked.
        LacksAny (S.content shelf.old) asked.command ⊎ Rose (S.read_faults shelf.old) (S.read_faults shelf.new)) }
    ensures missing { IfSome (settings_of (map string_bytes words.now)) (λ asked.
        LacksAny (S.content shelf.old) asked.command → IsUnlessMemory result.status Status.ReadFault) }

    // The source has no image, for the reason that is told.
    ensures source { (error : Refused) → result.status ≡ Status.BadSource error → IfSome (settings_of (map string_bytes words.now)) (λ asked.
        MayBeNoSource (S.content shelf.old) asked error) }
    ensures bad { IfSome (settings_of (map string_bytes words.now)) (λ asked. (bytes : List ℕ) (error : Refused) → source_in (S.content shelf.old) asked.command ≡ Some (Some bytes)
        → image_of bytes ≡ Err error → IsUnlessMemory result.status (Status.BadSource error) ⊎ (result.status ≡ Status.ReadFault)) }

    // The schedule isn't of the grammar, first on the line that is told.
    ensures schedule { (line : ℕ) → result.status ≡ Status.BadScheduleText line → IfSome (settings_of (map string_bytes words.now)) (λ asked.
        MayBeNoSchedule (S.content shelf.old) asked line) }
    ensures bad_schedule { IfSome (settings_of (map string_bytes words.now)) (λ asked. (bytes : List ℕ) (line : ℕ) → HasSource (S.content shelf.old) asked
        → schedule_in (S.content shelf.old) asked.command ≡ Some (Some bytes) → acts_of asked.nodes (processors asked.tree) bytes ≡ Err line
        → IsUnlessMemory result.status (Status.BadScheduleText line) ⊎ (result.status ≡ Status.ReadFault)) }

    // With a source that has an image, and no fault of reading or writing, nothing but the program and its schedule decide.
    ensures usual { IfSome (settings_of (map string_bytes words.now)) (λ asked. HasSource (S.content shelf.old) asked
        → IsUsual asked.command result.status ⊎ (result.status ≡ Status.NoMemory)
        ⊎ Rose (S.read_faults shelf.old) (S.read_faults shelf.new) ⊎ Rose (K.faults out.old) (K.faults out.new) ⊎ Rose (S.write_faults shelf.old) (S.write_faults shelf.new)) }

    ensures write { result.status ≡ Status.WriteFault → Rose (K.faults out.old) (K.faults out.new) ⊎ Rose (S.write_faults shelf.old) (S.write_faults shelf.new) }

    // At the end of a run each file that is asked for has its text. At any other each is as before or has its text, unless its write
    // has failed. Every other file is as before.
    ensures put { is_told result.status ≡ true → IfSome (settings_of (map string_bytes words.now)) (λ asked.
        HasFiles asked result.trace (S.content shelf.old) (S.content shelf.new)) }
    ensures left { Leaves (settings_of (map string_bytes words.now)) result.trace (Rose (S.write_faults shelf.old) (S.write_faults shelf.new))
        (S.content shelf.old) (S.content shelf.new) }

    // Where no file is asked for, none is written.
    ensures unasked { KeepsCount (settings_of (map string_bytes words.now)) (S.write_faults shelf.old) (S.write_faults shelf.new) }
{
    let ended = obey(rt, alloc, words, shelf, wires, out, gate);
    tell(alloc, ended, err)
}
