//! The job that a run makes for each line.

ghost use Rattle.std.specs.Prelude.{⊤, ℕ, List, Result};
ghost use Rattle.key_lines.specs.LineAnswers.{Answer, IsAnswered};

use crate::fault::LineFault;

/// What a job notes about an answer, beside its text. A run counts the answers with a note.
#[derive(Clone, Copy)]
pub enum Note {
    /// Nothing.
    None,
    /// A check printed `none`: the bytes are not a wrapping in either form.
    NoKey,
    /// A rewrap passed a wrapped key that was already under the new KEK.
    AlreadyNew,
}

/// What is done with the bytes of a line.
pub trait LineJob {
    /// Why the bytes were refused.
    type Refusal: Drop;

    /// The answers to the bytes of a line: a text with its note, or a refusal.
    ghost answers: { Self → List ℕ → Result Answer Self.Refusal → Type 0 };

    /// The bytes for which the job may return Memory in place of an answer.
    ghost may_lack_memory: { Self → List ℕ → Type 0 } = { λ _ _. ⊤ };

    /// Replaces `output` with the answer to `bytes` and an LF. Returns the note on the answer.
    /// The call may work in `bytes`: their content afterwards is not specified. The only errors are
    /// Refused and Memory.
    fn answer(
        &self,
        bytes: &mut Vec<u8>,
        output: &mut Vec<u8>,
    ) -> Result<Note, LineFault<Self::Refusal>>
        ensures { IsAnswered (answers self.now bytes.old.items)
            (may_lack_memory self.now bytes.old.items) output.new.items result };
}
