//! The log of refused lines.

ghost use Rattle.std.specs.Prelude.{List, Option, None, [], ◌∷◌};
ghost use Rattle.key_lines.specs.LineAnswers.{Logs};
ghost use Rattle.key_lines.specs.declared.fault.RefusedLine.{RefusedLine};

use crate::fault::RefusedLine;

/// Receives each line that a run skips, at once.
pub trait RefusalLog<F> {
    /// The lines that it received, in order, if they are known.
    ghost received: { Self → Option (List (RefusedLine F)) } = { λ _. None };

    /// Receives a line.
    fn receive(&mut self, refused: &RefusedLine<F>)
        ensures { Logs (received self.old) (received self.new) (refused.now ∷ []) };
}
