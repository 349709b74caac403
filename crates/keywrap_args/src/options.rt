//! The definitions of the arguments, as clap takes them and the help shows them.

use crate::help;
use clap::{Arg, ArgAction};
use std::alloc::{AllocError, Global};

// An argument of a subcommand.
#[derive(Clone, Copy)]
pub(crate) struct Argument<'a> {
    pub(crate) users: Users,
    // The long name, or for a positional argument any name.
    pub(crate) id: &'a str,
    pub(crate) help: &'a str,
    pub(crate) rules: Rules<'a>,
}

// The subcommands that have an argument.
#[derive(Clone, Copy)]
pub(crate) enum Users {
    // The subcommands that read a KEK.
    Keyed,
    // The subcommands with an option for the form.
    Formed,
    Unwrap,
    Rewrap,
    Drill,
}

// What clap needs to know of an argument beside its name and help.
#[derive(Clone, Copy)]
pub(crate) struct Rules<'a> {
    pub(crate) value: Value,
    // The text of `--help`, if `-h` prints a shorter one.
    long_help: Option<&'a str>,
    // The arguments that exclude it.
    pub(crate) conflicts: &'a [&'a str],
    // The arguments that it needs.
    pub(crate) needs: &'a [&'a str],
}

// The value of an argument.
#[derive(Clone, Copy)]
pub(crate) enum Value {
    // A flag has no value.
    Absent,
    Kek,
    // A file has a short name too.
    File(char),
    Iv,
    // The key is an argument without a name.
    Key,
}

impl Value {
    // Returns its name in the table of arguments.
    pub(crate) fn name(self) -> Option<&'static str> {
        match self {
            Value::Absent => None,
            Value::Kek => Some("KEK file"),
            Value::File(_) => Some("file"),
            Value::Iv => Some("initial value"),
            Value::Key => Some("key"),
        }
    }

    // Returns the short name of an argument with this value.
    pub(crate) fn short(self) -> Option<char> {
        match self {
            Value::File(short) => Some(short),
            Value::Absent | Value::Kek | Value::Iv | Value::Key => None,
        }
    }
}

impl<'a> Argument<'a> {
    // Returns the argument as clap takes it.
    pub(crate) fn to_clap(self, alloc: Global) -> Result<Arg<'a>, AllocError> {
        let arg = self.without_value(alloc)?;
        Ok(match self.rules.value {
            Value::Absent => arg.long(self.id).action(ArgAction::SetTrue),
            Value::Kek => arg.long(self.id).value_name("FILE").required(true),
            Value::File(short) => arg.long(self.id).short(short).value_name("FILE"),
            Value::Iv => arg.long(self.id).value_name("HEX"),
            Value::Key => arg.value_name("HEX").required(true),
        })
    }

    fn without_value(self, alloc: Global) -> Result<Arg<'a>, AllocError> {
        Arg::new(alloc, self.id)
            .help(self.help)
            .long_help(self.rules.long_help.unwrap_or(self.help))
            .conflicts_with_all(self.rules.conflicts)?
            .requires_all(self.rules.needs)
    }
}

// Makes an argument. It is a flag, unless the further fields give it a value.
macro_rules! argument {
    ($users:ident: $id:expr, $help:expr $(, $field:ident: $value:expr)*) => {
        Argument {
            users: Users::$users,
            id: $id,
            help: $help,
            rules: Rules { $($field: $value,)* ..FLAG },
        }
    };
}

const FLAG: Rules<'static> = Rules {
    value: Value::Absent,
    long_help: None,
    conflicts: &[],
    needs: &[],
};

// The arguments in the order of the help.
static ARGUMENTS: [Argument<'static>; 22] = [
    argument!(Keyed: "kek", "The file of the KEK: 16, 24 or 32 bytes, in hex", value: Value::Kek),
    argument! {
        Rewrap: "new-kek", "The file of the KEK of the new wrapped key, in hex",
        value: Value::Kek
    },
    argument!(Keyed: "input", "Reads FILE instead of standard input (-)", value: Value::File('i')),
    argument! {
        Keyed: "output", "Writes FILE instead of standard output (-)",
        value: Value::File('o'), long_help: Some(help::OUTPUT)
    },
    argument!(Formed: "padded", "The padded form of RFC 5649 (KWP): keys of any length"),
    argument!(Rewrap: "new-padded", "The new one gets the padded form of RFC 5649"),
    // The padded form has its own initial value. Clap ignores a conflict with an argument that the
    // subcommand lacks.
    argument! {
        Keyed: "iv", "The initial value both ends agreed on, 16 hex digits",
        value: Value::Iv, conflicts: &["padded", "keep-form"]
    },
    argument! {
        Rewrap: "new-iv", "The initial value of the new one, if not the default",
        value: Value::Iv, conflicts: &["new-padded", "keep-form"]
    },
    argument! {
        Rewrap: "keep-form", "Takes either form, and the new wrapped key keeps it",
        long_help: Some(help::KEEP_FORM), conflicts: &["padded", "new-padded"]
    },
    argument! {
        Unwrap: "any-form", "Takes either form",
        long_help: Some(help::ANY_FORM), conflicts: &["padded"]
    },
    argument! {
        Rewrap: "pass-new", "Copies a wrapped key that is already under the new KEK",
        long_help: Some(help::PASS_NEW)
    },
    argument!(Keyed: "raw", "Raw bytes instead of hex; every byte counts"),
    argument! {
        Keyed: "base64", "Base64 instead of hex",
        long_help: Some(help::BASE64), conflicts: &["raw", "base64url"]
    },
    argument! {
        Keyed: "base64url", "Base64url instead of hex",
        long_help: Some(help::BASE64URL), conflicts: &["raw"]
    },
    argument!(Keyed: "raw-kek", "KEK files are raw bytes, not hex; every byte counts"),
    argument! {
        Keyed: "base64-kek", "KEK files are base64 or base64url, not hex", conflicts: &["raw-kek"]
    },
    // Raw bytes have no lines. Options that need `--lines` exclude `--raw` too: if both are given,
    // clap no longer requires `--lines`.
    argument! {
        Keyed: "lines", "Many keys, one per line: each is answered on its line",
        long_help: Some(help::LINES), conflicts: &["raw"]
    },
    argument! {
        Keyed: "keep-going", "With --lines: writes an empty line for a refused one",
        long_help: Some(help::KEEP_GOING), conflicts: &["raw"], needs: &["lines"]
    },
    argument! {
        Keyed: "quiet", "With --lines: no progress on a terminal",
        conflicts: &["raw"], needs: &["lines"]
    },
    argument!(Keyed: "verbose", "Prints reasons and warnings, as on a terminal"),
    argument!(Drill: "hex", "The key or the wrapped key, in hex", value: Value::Key),
    argument!(Drill: "unwrap", "Unwraps a wrapped key instead of wrapping a key"),
];

// Returns the arguments in the order of the help.
pub(crate) fn arguments() -> &'static [Argument<'static>] {
    &ARGUMENTS
}
