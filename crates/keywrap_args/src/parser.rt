//! Parses the arguments with clap.

ghost use Rattle.std.specs.Prelude.{◌≡◌, ◌↔◌, Some, IfErr, IfOk, IsTrue, MatchOption};
ghost use Rattle.std.specs.Prelude.{codes, option_map};
ghost use Rattle.keywrap_args.specs.Given.{given, IsRefusal, Lacks, NamesFile, NamesNoFile};
ghost use Rattle.keywrap_args.specs.declared.parser.ParseStop.TheVariants as Stops;

use crate::hints::message;
use crate::subcommands::{Subcommand, matches_of, subcommand_named};
use clap::ArgMatches;
use clap::error::ErrorKind;
use std::alloc::{AllocError, Global};
use std::rt::Env;
use std::{env, io};

/// A subcommand and its arguments.
#[derive(Drop)]
pub struct Args<'a> {
    /// The subcommand.
    pub subcommand: Subcommand,
    matches: ArgMatches<'a>,
    alloc: Global,
}

/// What the program prints instead of running a subcommand.
#[derive(Drop)]
pub enum ParseStop {
    /// The help or the version, for standard output.
    Help(String),
    /// What is wrong with the arguments, for standard error.
    Usage(String),
    /// An allocation failed.
    Memory,
}

impl From<AllocError> for ParseStop {
    ghost from_gives = { λ _ stop. stop ≡ Stops.Memory };

    fn from(_error: AllocError) -> ParseStop {
        ParseStop::Memory
    }
}

/// Returns the arguments that the program was started with.
pub fn arguments<R: Env + AllocGlobal>(rt: &R) -> Result<Vec<String>, ParseStop> {
    match env::args(rt) {
        Ok(args) => Ok(args.collect::<Vec<String>>(rt.alloc())?),
        Err(error) if error.kind() == io::ErrorKind::OutOfMemory => Err(ParseStop::Memory),
        Err(_) => {
            let cause = "invalid UTF-8 was detected in one or more arguments";
            Err(refusal(rt.alloc(), cause)?)
        }
    }
}

/// Parses the arguments. The first one is the name of the program.
pub fn parse<'a>(alloc: Global, args: &'a [String]) -> Result<Args<'a>, ParseStop> {
    let mut matches = match matches_of(alloc, args) {
        Ok(matches) => matches,
        Err(error) if error.kind() == ErrorKind::OutOfMemory => return Err(ParseStop::Memory),
        Err(error) if error.use_stderr() => {
            return Err(ParseStop::Usage(message(alloc, args, error)?));
        }
        Err(error) => return Err(ParseStop::Help(format!(in alloc; "{error}")?)),
    };
    if let Some((name, matches)) = matches.remove_subcommand() {
        if let Some(subcommand) = subcommand_named(name) {
            return Ok(Args {
                subcommand,
                matches,
                alloc,
            });
        }
    }
    // Clap has refused such arguments.
    Err(refusal(alloc, "unrecognized subcommand")?)
}

impl<'a> Args<'a> {
    /// Returns whether a flag is given.
    pub fn has(&self, flag: &str) -> bool
        ensures { IsTrue result ↔ (given self.now flag.now ≡ Some (codes "true")) }
    {
        match self.value(flag) {
            Some(value) => value == "true",
            None => false,
        }
    }

    /// Returns the value of an argument, if it is given.
    #[tactic(auto, unfolding(crate::specs::Given::given))]
    pub fn value(&self, argument: &str) -> Option<&'a str>
        ensures { option_map (λ s. s.now) result ≡ given self.now argument.now }
    {
        self.matches.get_str(argument)
    }

    /// Returns the value of a required argument. Clap has refused arguments without it.
    pub fn required(&self, argument: &str) -> Result<&'a str, ParseStop>
        ensures value { IfOk result (λ value. given self.now argument.now ≡ Some value.now) }
        ensures refused { IfErr result (λ stop. IsRefusal stop × Lacks self.now argument.now) }
    {
        match self.value(argument) {
            Some(value) => Ok(value),
            None => Err(refusal(self.alloc, "a required argument was not provided")?),
        }
    }

    /// Returns the file of an option, or `None` for the standard stream: the option is not given,
    /// or its value is `-`.
    pub fn file(&self, option: &str) -> Option<&'a str>
        ensures { MatchOption result (NamesNoFile self.now option.now)
            (λ name. NamesFile self.now option.now name.now) }
    {
        match self.value(option) {
            Some(name) => if name == "-" { None } else { Some(name) },
            None => None,
        }
    }

    /// Returns the KEK file of an option. `-` is rejected: elsewhere it means standard input, here
    /// it would be a file name.
    pub fn kek_file(&self, option: &str) -> Result<&'a str, ParseStop>
        ensures name { IfOk result (λ name. NamesFile self.now option.now name.now) }
        ensures refused { IfErr result (λ stop. IsRefusal stop
            × NamesNoFile self.now option.now) }
    {
        let name = self.required(option)?;
        if name != "-" {
            return Ok(name);
        }
        let cause = format!(in self.alloc;
            "invalid value '-' for '--{option} <FILE>'\n\n  tip: a KEK on standard input is \
             --{option} /dev/stdin; a file of this name is ./-"
        )?;
        Err(refusal(self.alloc, cause.as_str())?)
    }
}

// Returns a refusal that clap does not make, in the form of clap's messages.
fn refusal(alloc: Global, cause: &str) -> Result<ParseStop, AllocError>
    ensures { IfOk result (λ stop. IsRefusal stop) }
{
    Ok(ParseStop::Usage(format!(in alloc; "error: {cause}{USAGE}")?))
}

const USAGE: &str = "\n\nUsage: keywrap <COMMAND>\n\nFor more information, try '--help'.\n";
