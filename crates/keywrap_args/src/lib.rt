//! The arguments of the command `keywrap`: its subcommands and options, the help, and the messages
//! for refused arguments. The crate depends only on clap, so it is proved beside the others.
#![tactic(auto)]

mod escape;
mod help;
mod hints;
mod options;
mod parser;
mod subcommands;
mod table;

pub use escape::Escaped;
pub use parser::{Args, ParseStop, arguments, parse};
pub use subcommands::Subcommand;
pub use table::{Table, asks_for_table};
