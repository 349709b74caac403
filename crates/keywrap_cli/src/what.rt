//! What an operation does with keys, and how a command reads them.

ghost use Rattle.std.specs.Prelude.{◌≡◌, ◌↔◌, IsTrue};
ghost use Rattle.keywrap_cli.specs.Files.{input_notation};
ghost use Rattle.keywrap_cli.specs.Operation.{IsCheck, KeepsForm};

use crate::files::{Notation, line_notation};
use key_lines::RunOptions;
use key_wrap_core::{AgreedForm, InitialValue, RewrapForms};

/// What an operation does with a key.
#[derive(Clone, Copy)]
pub enum What {
    /// A wrap or an unwrap.
    Convert(Conversion),
    /// The input is a wrapped key in either form, and the output a line with its form and the
    /// length of its key.
    Check(InitialValue),
    /// The input is a wrapped key, and the output the wrapping of the same key under the new KEK.
    Rewrap {
        /// The forms of the old wrapped key and of the new one.
        forms: RewrapForms,
        /// Whether a wrapped key that is already under the new KEK, in the new form, is copied.
        pass_new: bool,
    },
}

/// A wrap or an unwrap.
#[derive(Clone, Copy)]
pub enum Conversion {
    /// The input is a key, and the output its wrapping in this form.
    Wrap(AgreedForm),
    /// The input is a wrapped key in this form, and the output the key.
    Unwrap(AgreedForm),
    /// The input is a wrapped key in either form, and the output the key. The plain form has this
    /// initial value.
    UnwrapAny(InitialValue),
}

/// How a command reads its keys, and the notation of its input and of its output.
#[derive(Clone, Copy)]
pub enum How {
    /// The input is one key.
    Whole(Notation),
    /// Each line of the input is a key.
    Lines(RunOptions),
}

impl What {
    /// Returns whether this is a check, whose output is a line in any notation.
    pub fn is_check(&self) -> bool
        ensures { IsTrue result ↔ IsCheck self.now }
    {
        match self {
            What::Check(_) => true,
            What::Convert(_) | What::Rewrap { .. } => false,
        }
    }

    /// Returns whether this is a rewrap that changes neither the form nor the initial value.
    pub fn keeps_form(&self) -> bool
        ensures { IsTrue result ↔ KeepsForm self.now }
    {
        match self {
            What::Rewrap { forms, .. } => match forms {
                RewrapForms::Kept => true,
                RewrapForms::Changed {
                    old: AgreedForm::Plain(iv),
                    new: AgreedForm::Plain(new_iv),
                } => iv == new_iv,
                RewrapForms::Changed {
                    old: AgreedForm::Padded,
                    new: AgreedForm::Padded,
                } => true,
                _ => false,
            },
            What::Convert(_) | What::Check(_) => false,
        }
    }
}

impl How {
    /// Returns the notation of the input.
    pub fn notation(self) -> Notation
        ensures { result ≡ input_notation self }
    {
        match self {
            How::Whole(notation) => notation,
            How::Lines(options) => line_notation(options.notation),
        }
    }
}
