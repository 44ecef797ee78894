//! The source of `stress`.

ghost use Rattle.std.specs.Prelude.{◌≡◌, ◌++◌, map, IfOk, OnOk};
ghost use Rattle.run_texts.specs.Stress.{all_jobs, cells, filled, in_job, in_main, job_line, job_lines, stress_source};

use basics::NoMemory;
use std::alloc::{AllocError, Global};
use trace_text::push_number;

static IN_MAIN: [&[u8]; 8] = [
    b"  la a0, jobI",
    b"  li a1, I",
    b"  li a2, 3",
    b"  li a7, 6",
    b"  ecall",
    b"  li a7, 7",
    b"  ecall",
    b"  add s1, s1, a1",
];

static IN_JOB: [&[u8]; 38] = [
    b"jobI:",
    b"  li s0, C",
    b"  li a0, D",
    b"  li a7, 12",
    b"  ecall",
    b"  mv s1, a0",
    b"  li s2, 0",
    b"fillI:",
    b"  slli t0, s2, 4",
    b"  add t0, t0, s1",
    b"  sd s2, 0(t0)",
    b"  addi s2, s2, 1",
    b"  blt s2, s0, fillI",
    b"  li a7, 4",
    b"  ecall",
    b"  mv s3, a0",
    b"  li a0, I",
    b"modI:",
    b"  blt a0, s3, goI",
    b"  sub a0, a0, s3",
    b"  j modI",
    b"goI:",
    b"  li a7, 14",
    b"  ecall",
    b"  li s2, 0",
    b"  li s4, 0",
    b"sumI:",
    b"  slli t0, s2, 4",
    b"  add t0, t0, s1",
    b"  ld t1, 0(t0)",
    b"  add s4, s4, t1",
    b"  addi s2, s2, 1",
    b"  blt s2, s0, sumI",
    b"  mv a0, s1",
    b"  li a7, 13",
    b"  ecall",
    b"  mv a0, s4",
    b"  ret",
];

/// The lines of a job in the main thread.
#[tactic(auto, unfolding(crate::specs::Stress::in_main))]
fn in_main() -> &'static [&'static [u8]]
    ensures { map (λ line. line.now) result.now ≡ in_main }
{
    &IN_MAIN
}

/// The lines of a job.
#[tactic(auto, unfolding(crate::specs::Stress::in_job))]
fn in_job() -> &'static [&'static [u8]]
    ensures { map (λ line. line.now) result.now ≡ in_job }
{
    &IN_JOB
}

/// How many cells a job has.
fn cells(job: u32) -> u64
    ensures { result ≡ cells job }
{
    u64::from(1 + job % 50)
}

/// Appends what a letter stands for in a line of a job.
#[tactic(auto, unfolding(crate::specs::Stress::filled))]
fn push_letter(out: &mut Vec<u8>, job: u32, letter: u8) -> Result<(), AllocError>
    ensures { OnOk result (out.new.items ≡ out.old.items ++ filled job letter) }
{
    match letter {
        b'I' => push_number(out, u64::from(job)),
        b'C' => push_number(out, cells(job)),
        b'D' => push_number(out, 16 * cells(job)),
        _ => Ok(out.push(letter)?),
    }
}

/// Appends a line of a job.
fn push_line(out: &mut Vec<u8>, job: u32, line: &[u8]) -> Result<(), AllocError>
    ensures { OnOk result (out.new.items ≡ out.old.items ++ job_line job line.now) }
{
    for letter in line {
        push_letter(out, job, *letter)?;
    }
    Ok(out.push(b'\n')?)
}

/// Appends lines of a job.
fn push_lines(out: &mut Vec<u8>, job: u32, lines: &[&[u8]]) -> Result<(), AllocError>
    ensures { OnOk result (out.new.items ≡ out.old.items ++ job_lines (map (λ line. line.now) lines.now) job) }
{
    for line in lines {
        push_line(out, job, line)?;
    }
    Ok(())
}

/// Appends lines of each job.
fn push_jobs(out: &mut Vec<u8>, jobs: u32, lines: &[&[u8]]) -> Result<(), AllocError>
    ensures { OnOk result (out.new.items ≡ out.old.items ++ all_jobs (map (λ line. line.now) lines.now) jobs) }
{
    for job in 0..jobs {
        push_lines(out, job, lines)?;
    }
    Ok(())
}

/// The source of `stress` with so many jobs.
pub fn stress_source(alloc: Global, jobs: u32) -> Result<Vec<u8>, NoMemory>
    ensures { IfOk result (λ text. text.items ≡ stress_source jobs) }
{
    let mut out = Vec::new(alloc);
    out.extend_from_slice(b"main:\n")?;
    push_jobs(&mut out, jobs, in_main())?;
    out.extend_from_slice(b"  mv a0, s1\n  ret\n")?;
    push_jobs(&mut out, jobs, in_job())?;
    Ok(out)
}
