//! What a command line asks for.

ghost use Rattle.std.specs.Prelude.{◌≡◌, ◌↔◌, IsTrue};
ghost use Rattle.keywrap_cli.specs.Files.{input_notation};
ghost use Rattle.keywrap_cli.specs.Operation.{IsCheck};
ghost use Rattle.keywrap.specs.Session.{name_of};

use key_wrap_core::Form;
use keywrap_cli::{Direction, How, Notation, Operation};
use keywrap_io::FileRole;

/// What a command line asks for.
#[derive(Drop)]
pub enum Command<'a> {
    /// An operation on files: wrap, unwrap, check or rewrap.
    Run(Run<'a>),
    /// A wrap or an unwrap of hex digits with the toy cipher.
    Drill {
        form: Form,
        direction: Direction,
        hex: &'a str,
    },
    /// The test vectors of the standards.
    Vectors,
}

/// An operation and its files.
#[derive(Drop)]
pub struct Run<'a> {
    /// With the names of its KEK files.
    pub operation: Operation<&'a str>,
    /// How the input is read.
    pub how: How,
    /// The input file. `None` means standard input.
    pub input: Option<&'a str>,
    /// The output file. `None` means standard output.
    pub output: Option<&'a str>,
    /// Whether the progress of `--lines` is hidden.
    pub quiet: bool,
    /// Whether a refusal has a second line even if standard error is not a terminal.
    pub verbose: bool,
}

impl<'a> Run<'a> {
    /// Returns whether the output is raw bytes. A check writes a line.
    pub fn writes_raw(&self) -> bool
        ensures { IsTrue result
            ↔ (¬ IsCheck self.now.operation.what × (input_notation self.now.how ≡ Notation.Raw)) }
    {
        !self.operation.what.is_check() && matches!(self.how.notation(), Notation::Raw)
    }

    /// Returns the name of a file, if it has one.
    pub fn file_name(&self, role: FileRole) -> Option<&'a str>
        ensures { result ≡ name_of self.now role }
    {
        match role {
            FileRole::Kek => Some(self.operation.keks.kek),
            FileRole::NewKek => self.operation.keks.new_kek,
            FileRole::Input => self.input,
            FileRole::Output => self.output,
        }
    }
}
