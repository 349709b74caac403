//! The subcommands and their arguments, as clap parses them and the help shows them.

use crate::help;
use crate::options::{self, Users};
use clap::{Arg, ArgMatches, Command, Error};
use std::alloc::{AllocError, Global};

/// A subcommand.
#[derive(Clone, Copy)]
pub enum Subcommand {
    Wrap,
    Unwrap,
    Rewrap,
    Check,
    Drill,
    Vectors,
}

// What clap and the help need to know of a subcommand beside its arguments.
#[derive(Clone, Copy)]
pub(crate) struct Definition<'a> {
    pub(crate) subcommand: Subcommand,
    pub(crate) name: &'a str,
    pub(crate) about: &'a str,
    // Clap's own usage line would not show the source of the input.
    usage: &'a str,
    // The end of its help.
    example: &'a str,
}

static DEFINITIONS: [Definition<'static>; 6] = [
    Definition {
        subcommand: Subcommand::Wrap,
        name: "wrap",
        about: "Wraps a key",
        usage: "keywrap wrap [OPTIONS] --kek <FILE> < KEY > WRAPPED",
        example: help::WRAP_EXAMPLE,
    },
    Definition {
        subcommand: Subcommand::Unwrap,
        name: "unwrap",
        about: "Unwraps a wrapped key",
        usage: "keywrap unwrap [OPTIONS] --kek <FILE> < WRAPPED > KEY",
        example: help::UNWRAP_EXAMPLE,
    },
    Definition {
        subcommand: Subcommand::Rewrap,
        name: "rewrap",
        about: "Rewraps a key under another KEK; the key itself is not written",
        usage: "keywrap rewrap [OPTIONS] --kek <FILE> --new-kek <FILE> < WRAPPED > NEW",
        example: help::REWRAP_EXAMPLE,
    },
    Definition {
        subcommand: Subcommand::Check,
        name: "check",
        about: "Prints the form in which a wrapped key fits; no key is written",
        usage: "keywrap check [OPTIONS] --kek <FILE> < WRAPPED",
        example: help::CHECK_EXAMPLE,
    },
    Definition {
        subcommand: Subcommand::Drill,
        name: "drill",
        about: "Wraps with a toy cipher that swaps the halves of a block",
        usage: "keywrap drill [OPTIONS] <HEX>",
        example: help::DRILL_EXAMPLE,
    },
    Definition {
        subcommand: Subcommand::Vectors,
        name: "vectors",
        about: "Runs the vectors of RFC 3394, RFC 5649 and FIPS 197: ok or failed",
        usage: "keywrap vectors",
        example: help::VECTORS_EXAMPLE,
    },
];

/// Returns the subcommand of this name.
pub fn subcommand_named(name: &str) -> Option<Subcommand> {
    definitions()
        .iter()
        .find(|it| it.name == name)
        .map(|it| it.subcommand)
}

/// Parses the arguments. The first one is the name of the program.
pub fn matches_of<'a>(alloc: Global, args: &'a [String]) -> Result<ArgMatches<'a>, Error> {
    keywrap(alloc)?.try_get_matches_from(args)
}

// Returns the command `keywrap` with its subcommands.
fn keywrap<'a>(alloc: Global) -> Result<Command<'a>, AllocError> {
    let subcommands = subcommands(alloc)?;
    Command::new(alloc, "keywrap")
        .version("1.3.0-dev")
        .propagate_version(true)
        .about("Wraps and unwraps keys by AES Key Wrap (RFC 3394 and RFC 5649)")
        // After an unknown option clap's own usage would name an option that is similar.
        .override_usage("keywrap <COMMAND>")
        .after_long_help(help::NOTES)
        .arg_required_else_help(true)
        .subcommand_required(true)
        .bin_name("keywrap")?
        .subcommands(subcommands)
}

fn subcommands<'a>(alloc: Global) -> Result<Vec<Command<'a>>, AllocError> {
    let mut subcommands = Vec::new(alloc);
    for it in definitions() {
        subcommands.push(it.to_clap(alloc)?)?;
    }
    Ok(subcommands)
}

// Returns the subcommands in the order of the help. It is a call because a loop over a constant takes
// long to prove.
pub(crate) fn definitions() -> &'static [Definition<'static>] {
    &DEFINITIONS
}

impl<'a> Definition<'a> {
    // Returns the subcommand as clap takes it. With this display name its `--version` prints the name
    // of the program.
    fn to_clap(self, alloc: Global) -> Result<Command<'a>, AllocError> {
        let arguments = self.subcommand.arguments(alloc)?;
        Command::new(alloc, self.name)
            .about(self.about)
            .after_long_help(self.example)
            .override_usage(self.usage)
            .display_name("keywrap")?
            .args(arguments)
    }
}

impl Subcommand {
    fn arguments<'a>(self, alloc: Global) -> Result<Vec<Arg<'a>>, AllocError> {
        let mut arguments = Vec::new(alloc);
        for argument in options::arguments() {
            if self.has(argument.users) {
                arguments.push(argument.to_clap(alloc)?)?;
            }
        }
        Ok(arguments)
    }

    // Returns whether the subcommand is one of these.
    pub(crate) fn has(self, users: Users) -> bool {
        match self {
            Subcommand::Wrap => matches!(users, Users::Keyed | Users::Formed),
            Subcommand::Unwrap => { matches!(users, Users::Keyed | Users::Formed | Users::Unwrap) }
            Subcommand::Rewrap => !matches!(users, Users::Unwrap | Users::Drill),
            Subcommand::Check => matches!(users, Users::Keyed),
            Subcommand::Drill => matches!(users, Users::Formed | Users::Drill),
            Subcommand::Vectors => false,
        }
    }
}
