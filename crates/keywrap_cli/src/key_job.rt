//! The answer of an operation to the bytes of an input or of a line.

ghost use Rattle.std.specs.Prelude.{◌≡◌, IfOk, Ok, string_bytes};
ghost use Rattle.key_lines.specs.LineAnswers.{answered};
ghost use Rattle.keywrap_cli.specs.JobAnswers.{Answers, AnswersTo, IsPrinted, MayLack, kind_line, kind_note, rewrap_note};
ghost use Rattle.keywrap_cli.specs.JobReading.{last_kek};

use crate::convert::convert_into;
use crate::files::{Notation, print_in};
use crate::what::{Conversion, What};
use block_pair::{BlockPair, Meter};
use key_lines::{LineFault, LineJob, Note};
use key_wrap_core::{InitialValue, Kind, Refusal, RewrapForms, Rewrapped, kind_into_with, rewrap};
use std::alloc::{AllocError, Global};

/// An operation under its block permutations. A rewrap without a new one stays under the first.
#[derive(Drop)]
pub struct KeyJob<B: BlockPair> {
    pub alloc: Global,
    pub what: What,
    pub notation: Notation,
    pub pair: B,
    pub new_pair: Option<B>,
}

impl<B: BlockPair> LineJob for KeyJob<B> {
    type Refusal = Refusal;

    ghost answers = { λ job bytes answer. Answers job.what job.notation (B.encrypted job.pair)
        (B.encrypted (last_kek job.pair job.new_pair)) bytes answer };

    ghost may_lack_memory = { λ job bytes. MayLack job.what (B.encrypted job.pair)
        (B.encrypted (last_kek job.pair job.new_pair)) bytes };

    fn answer(
        &self,
        bytes: &mut Vec<u8>,
        output: &mut Vec<u8>,
    ) -> Result<Note, LineFault<Refusal>> {
        match &self.what {
            What::Convert(conversion) => self.convert(conversion, bytes, output),
            What::Check(iv) => match self.check(iv, bytes, output) {
                Ok(note) => Ok(note),
                Err(_) => Err(LineFault::Memory),
            },
            What::Rewrap { forms, pass_new } => self.rewrap(forms, *pass_new, bytes, output),
        }
    }
}

impl<B: BlockPair> KeyJob<B> {
    // Makes the answer of a wrap or of an unwrap.
    fn convert(
        &self,
        conversion: &Conversion,
        bytes: &mut Vec<u8>,
        output: &mut Vec<u8>,
    ) -> Result<Note, LineFault<Refusal>>
        ensures { AnswersTo (What.Convert conversion.now) self.now.notation
            (B.encrypted self.now.pair) (B.encrypted (last_kek self.now.pair self.now.new_pair))
            bytes.old.items output.new.items result }
    {
        convert_into(conversion, &self.pair, bytes, output)?;
        self.print(bytes, output)
    }

    // Makes the answer of a check. `output` is the room for the registers.
    fn check(
        &self,
        iv: &InitialValue,
        text: &[u8],
        output: &mut Vec<u8>,
    ) -> Result<Note, AllocError>
        ensures { IfOk result (λ note. Answers (What.Check iv.now) self.now.notation
            (B.encrypted self.now.pair) (B.encrypted (last_kek self.now.pair self.now.new_pair))
            text.now (answered output.new.items (Ok note))) }
    {
        output.resize(text.len().saturating_sub(8), 0)?;
        let Ok(found) = kind_into_with(&mut Meter::new(&self.pair), iv, text, output) else {
            return Err(AllocError);
        };
        let line = kind_line(self.alloc, found)?;
        output.clear();
        output.extend_from_slice(line.as_bytes())?;
        Ok(kind_note(found))
    }

    // Makes the answer of a rewrap.
    fn rewrap(
        &self,
        forms: &RewrapForms,
        pass_new: bool,
        bytes: &mut Vec<u8>,
        output: &mut Vec<u8>,
    ) -> Result<Note, LineFault<Refusal>>
        ensures { AnswersTo (What.Rewrap forms.now pass_new) self.now.notation
            (B.encrypted self.now.pair) (B.encrypted (last_kek self.now.pair self.now.new_pair))
            bytes.old.items output.new.items result }
    {
        let (mut old, mut new) = (Meter::new(&self.pair), Meter::new(self.last_pair()));
        let rewrapped = match rewrap(&mut old, &mut new, forms, pass_new, bytes) {
            Ok(rewrapped) => rewrapped,
            Err(fault) => return Err(LineFault::Refused(fault)),
        };
        print_in(self.notation, bytes, output)?;
        Ok(rewrap_note(rewrapped))
    }

    // Returns the new block permutation or, without it, the only one.
    fn last_pair(&self) -> &B
        ensures { result.now ≡ last_kek self.now.pair self.now.new_pair }
    {
        match &self.new_pair {
            Some(new_pair) => new_pair,
            None => &self.pair,
        }
    }

    // Replaces the bytes in `output` with their text in the notation, and returns no note. `bytes` is
    // used as a buffer.
    fn print(&self, bytes: &mut Vec<u8>, output: &mut Vec<u8>) -> Result<Note, LineFault<Refusal>>
        ensures { IsPrinted self.now.notation output.old.items output.new.items result }
    {
        print_in(self.notation, output, bytes)?;
        std::mem::swap(bytes, output);
        Ok(Note::None)
    }
}

/// Returns the line of a check.
pub fn kind_line(alloc: Global, kind: Kind) -> Result<String, AllocError>
    ensures { IfOk result (λ line. string_bytes line ≡ kind_line kind) }
{
    match kind {
        Kind::Plain(len) => format!(in alloc; "plain {len}\n"),
        Kind::Padded(len) => format!(in alloc; "padded {len}\n"),
        Kind::Neither => String::from_str(alloc, "none\n"),
    }
}

// Returns the note on the line of a check.
fn kind_note(kind: Kind) -> Note
    ensures { result ≡ kind_note kind }
{
    match kind {
        Kind::Plain(_) | Kind::Padded(_) => Note::None,
        Kind::Neither => Note::NoKey,
    }
}

// Returns the note on the answer of a rewrap.
fn rewrap_note(rewrapped: Rewrapped) -> Note
    ensures { result ≡ rewrap_note rewrapped }
{
    match rewrapped {
        Rewrapped::Fresh => Note::None,
        Rewrapped::AlreadyNew => Note::AlreadyNew,
    }
}
