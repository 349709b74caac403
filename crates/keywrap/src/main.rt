//! The command `keywrap`: AES Key Wrap (RFC 3394 and RFC 5649) of files.
#![tactic(auto)]

mod cli;
mod command;
mod explain;
mod hints;
mod lines;
mod program;
mod prompt;
mod session;
mod system;
mod table;
mod warnings;

use keywrap_io::{Streams, stream_kind};
use std::process::ExitCode;

fn main(rt: HostRuntime) -> ExitCode {
    let streams = Streams {
        input: stream_kind(&rt.stdin()),
        output: stream_kind(&rt.stdout()),
        error: stream_kind(&rt.stderr()),
    };
    ExitCode::from(program::run(&rt, streams))
}
