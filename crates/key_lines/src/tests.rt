//! Lines that are read, answered and written, by readers and writers that fail in turn.

ghost use Rattle.std.specs.Prelude.{◌≡◌, ◌++◌, [], ◌∷◌, Ok, Err, codes};
ghost use Rattle.key_lines.specs.LineMeaning.{blank_ended_meaning};

mod doubles;
mod reading;
mod running;

use crate::TextNotation;
use key_files::FileFault;

// The definition itself, computed on lines whose meaning is known.
#[tactic(auto, unfolding(crate::specs::LineMeaning::blank_ended_meaning, key_files::specs::FileMeaning::digit_text_meaning, key_files::specs::FileMeaning::file_meaning, key_files::specs::HexText::paired, key_files::specs::Base64Text::symbol_text_meaning))]
fn known_meanings()
    ensures ends { blank_ended_meaning TextNotation.Hex (9 ∷ codes "  0aFF " ++ 13 ∷ [])
        ≡ Ok (10 ∷ 255 ∷ []) }
    ensures none { blank_ended_meaning TextNotation.Hex (13 ∷ codes " " ++ 9 ∷ []) ≡ Ok [] }
    ensures between { blank_ended_meaning TextNotation.Hex (codes "0a 0b")
        ≡ Err (FileFault.BadDigit 2) }
    ensures place { blank_ended_meaning TextNotation.Hex (codes "  0a 0g")
        ≡ Err (FileFault.BadDigit 4) }
    ensures first { blank_ended_meaning TextNotation.Hex (codes " 0 0 1")
        ≡ Err (FileFault.BadDigit 2) }
    ensures odd { blank_ended_meaning TextNotation.Hex (codes " 012 ") ≡ Err FileFault.OddDigits }
    ensures inside { blank_ended_meaning TextNotation.Base64 (codes " +/ 8")
        ≡ Err (FileFault.BadCharacter 3) }
{}

#[test]
fn the_definition_computes() {
    known_meanings();
}
