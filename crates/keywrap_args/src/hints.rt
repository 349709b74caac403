//! The message for refused arguments: clap's text, and a hint for common guesses.

use crate::escape::Escaped;
use crate::subcommands::{Subcommand, matches_of, subcommand_named};
use clap::Error;
use clap::error::ErrorKind;
use std::alloc::{AllocError, Global};

const SUBCOMMANDS: &str = "the first argument is wrap, unwrap, rewrap, check, drill or vectors";

const OPTIONS: &str = "files are named by options: --kek FILE, --input FILE, --output FILE";

// Clap's refusal of `--in`, for which it would propose an option that is not `--input`.
const NOT_INPUT: &str = "error: unexpected argument '--in' found";

const INPUT: &str = "a similar argument exists: '--input'";

// The text before the usage in a message of clap.
const USAGE: &str = "\n\nUsage: ";

// The text before a hint.
const TIP: &str = "\n\n  tip: ";

/// Returns the message for arguments that clap refused, with a hint if clap gives none. A terminal
/// shows the message, so control characters of the arguments are escaped.
pub fn message(alloc: Global, args: &[String], error: Error) -> Result<String, AllocError> {
    let shown = escaped(alloc, args)?;
    // Escaped arguments are refused like the arguments themselves.
    let error = matches_of(alloc, shown.as_slice()).err().unwrap_or(error);
    with_hint(alloc, shown.as_slice(), &error)
}

fn escaped(alloc: Global, args: &[String]) -> Result<Vec<String>, AllocError> {
    let mut shown = Vec::new(alloc);
    for arg in args {
        let arg = Escaped(arg.as_str());
        shown.push(format!(in alloc; "{arg}")?)?;
    }
    Ok(shown)
}

fn with_hint(alloc: Global, args: &[String], error: &Error) -> Result<String, AllocError> {
    if error.kind() == ErrorKind::OutOfMemory {
        return Err(AllocError);
    }
    let text = format!(in alloc; "{error}")?;
    let Some((before_usage, usage)) = text.as_str().split_once(USAGE) else {
        return Ok(text);
    };
    let (refusal, tip) = match before_usage.split_once(TIP) {
        Some((refusal, tip)) => (refusal, Some(tip)),
        None => (before_usage, None),
    };
    match hint(args, error.kind(), refusal, tip) {
        Some(hint) => format!(in alloc; "{refusal}{TIP}{hint}{USAGE}{usage}"),
        None => Ok(text),
    }
}

// Returns the hint on a refusal of clap, which may have a tip of clap's.
fn hint(
    args: &[String],
    kind: ErrorKind,
    refusal: &str,
    tip: Option<&str>,
) -> Option<&'static str> {
    // The subcommand, if the first argument names one.
    let subcommand = args.get(1).and_then(|word| subcommand_named(word.as_str()));
    match (kind, subcommand) {
        (ErrorKind::UnknownArgument, Some(Subcommand::Drill | Subcommand::Vectors)) => None,
        (ErrorKind::UnknownArgument, Some(_)) if refusal == NOT_INPUT => Some(INPUT),
        _ if tip.is_some() => None,
        (ErrorKind::InvalidSubcommand, _) | (ErrorKind::UnknownArgument, None) => Some(SUBCOMMANDS),
        // Clap's message begins with the argument.
        (ErrorKind::UnknownArgument, Some(_))
            if !refusal.starts_with("error: unexpected argument '--") => { Some(OPTIONS) }
        _ => None,
    }
}
