//! The program, from its arguments to its exit status.

ghost use Rattle.std.specs.Prelude.{◌≡◌, ◌≢◌, MatchResult};
ghost use Rattle.keywrap_cli.specs.Faults.{program_status};
ghost use Rattle.keywrap.specs.Program.{EndsCommand, EndsStop};

use crate::cli::{CommandStop, read_command};
use crate::command::Command;
use crate::explain::print_fault;
use crate::session::Session;
use crate::system::System;
use keywrap_args::ParseStop::{Help, Memory, Usage};
use keywrap_args::arguments;
use keywrap_cli::{Library, ProgramFault, run_drill, run_vectors, statuses, write_help};
use keywrap_io::{Disk, Streams, SystemDisk};
use std::env;
use std::io::{self, Write};

/// Runs the program on the arguments that it was started with, and returns its exit status.
pub fn run<R: System>(rt: &R, streams: Streams) -> u8 {
    let mut out = io::writer(rt);
    match run_arguments(rt, streams, &mut out) {
        Ok(status) => status,
        Err(stop) => print_stop(rt, &stop, &mut out),
    }
}

fn run_arguments<R: System, W: Write>(
    rt: &R,
    streams: Streams,
    out: &mut W,
) -> Result<u8, CommandStop> {
    let args = arguments(rt)?;
    let mut command = read_command(rt.alloc(), args.as_slice())?;
    if let Command::Run(run) = &mut command {
        run.verbose = run.verbose || is_verbose(rt);
    }
    Ok(run_command(rt, &command, streams, &mut SystemDisk { rt }, out))
}

// Returns whether the environment turns `--verbose` on.
fn is_verbose<R: System>(rt: &R) -> bool {
    env::var(rt, "KEYWRAP_VERBOSE").is_ok_and(|value| value.as_str() == "1")
}

// Runs a command, and returns its exit status. `out` is standard output for the commands without
// files.
fn run_command<R: System, D: Disk, W: Write>(
    rt: &R,
    command: &Command<'_>,
    streams: Streams,
    disk: &mut D,
    out: &mut W,
) -> u8
    ensures { EndsCommand (D.reads disk.old) (D.holds disk.old) (D.holds disk.new)
        (D.cannot_read disk.old) (D.cannot_create disk.old) (D.cannot_occupy disk.old)
        command.now streams.output (W.contents out.old) (W.contents out.new) result }
{
    match command {
        Command::Run(run) => Session::new(rt, run, streams).run(disk),
        Command::Drill {
            form,
            direction,
            hex,
        } => status_of(rt, run_drill(rt.alloc(), *form, *direction, hex, out)),
        Command::Vectors => status_of(rt, run_vectors::<Library, _>(rt.alloc(), out)),
    }
}

// No fault has status 0.
fn status_of<R: Eprint>(rt: &R, done: Result<u8, ProgramFault>) -> u8
    ensures { MatchResult done (λ status. result ≡ status)
        (λ fault. (result ≡ program_status fault) × (result ≢ 0)) }
{
    match done {
        Ok(status) => status,
        Err(fault) => print_fault(rt, &fault),
    }
}

// Prints why no command was run, and returns the exit status. Help goes to `out`, which is standard
// output, and a message on the arguments to standard error.
fn print_stop<R: Eprint, W: Write>(rt: &R, stop: &CommandStop, out: &mut W) -> u8
    ensures { EndsStop stop.now (W.contents out.old) (W.contents out.new) result }
{
    match stop {
        CommandStop::Args(Help(text)) => status_of(rt, write_help(text.as_str(), out)),
        CommandStop::Args(Usage(text)) => {
            // Nothing is left to do if standard error is closed.
            let _ = rt.eprint(text.as_str());
            statuses::USAGE
        }
        CommandStop::Args(Memory) => print_fault(rt, &ProgramFault::Memory),
        CommandStop::Fault(fault) => print_fault(rt, fault),
    }
}
