//! Test cases: an operation, its files, its result and its output; and how a case is run.

use crate::convert::convert_into;
use crate::files::Notation;
use crate::kek_file::Keks;
use crate::operation::Operation;
use crate::outcome::{Done, JobFault};
use crate::what::{Conversion, What};
use block_pair::BlockPair;
use key_wrap_core::{AgreedForm, Form, InitialValue, RewrapForms};
use std::alloc::Global;
use std::io::Write;
use std::process::Abort;
use std::test::Fail;
use test_doubles::{Narrow, Trickle};
use test_vectors::Algorithm;

/// The notations of the input and of the KEK files.
pub const HEX: [Notation; 2] = [Notation::Hex, Notation::Hex];

pub const RAW: [Notation; 2] = [Notation::Raw, Notation::Raw];

pub const RAW_KEKS: [Notation; 2] = [Notation::Hex, Notation::Raw];

/// The result of an operation.
pub type Answer = Result<Done, JobFault>;

pub const WRITTEN: Answer = Ok(Done::Written);

/// An operation, the notations of its input and of its KEK files, its files (the KEK, the new KEK
/// and the input), its result and its output.
#[derive(Clone, Copy)]
pub struct Case<'a>(
    pub What,
    pub [Notation; 2],
    pub [&'a [u8]; 3],
    pub Answer,
    pub &'a [u8],
);

/// Returns a case whose files are hex, and whose output is written.
pub fn hex(what: What, files: [&'static [u8]; 3], output: &'static [u8]) -> Case<'static> {
    Case(what, HEX, files, WRITTEN, output)
}

/// Returns a case whose files are raw, and whose output is written.
pub fn raw(what: What, files: [&'static [u8]; 3], output: &'static [u8]) -> Case<'static> {
    Case(what, RAW, files, WRITTEN, output)
}

/// Returns a case whose files are hex, and which is refused.
pub fn refused(what: What, files: [&'static [u8]; 3], fault: JobFault) -> Case<'static> {
    Case(what, HEX, files, Err(fault), b"")
}

/// Returns a form with the default initial value.
pub fn form(form: Form) -> AgreedForm {
    AgreedForm::by_default(form)
}

/// Returns a wrap in a form.
pub fn wrap_in(form: AgreedForm) -> What {
    What::Convert(Conversion::Wrap(form))
}

/// Returns an unwrap in a form.
pub fn unwrap_in(form: AgreedForm) -> What {
    What::Convert(Conversion::Unwrap(form))
}

/// Returns a check under the default initial value.
pub fn check() -> What {
    What::Check(InitialValue::default())
}

/// Returns a rewrap from the first form to the second, with the default initial value. `None` keeps
/// the form. With `pass_new` it copies wrapped keys that are new already.
pub fn rewrap(forms: Option<(Form, Form)>, pass_new: bool) -> What {
    let forms = match forms {
        None => RewrapForms::Kept,
        Some((old, new)) => RewrapForms::by_default(old, new),
    };
    What::Rewrap { forms, pass_new }
}

/// Returns the form of a published wrapping, and `None` for an encryption.
pub fn wrapping_form(algorithm: Algorithm) -> Option<Form> {
    match algorithm {
        Algorithm::KeyWrap => Some(Form::Plain),
        Algorithm::KeyWrapWithPadding => Some(Form::Padded),
        Algorithm::Encryption => None,
    }
}

/// Returns the wrapping of a key in a form.
pub fn wrapped<B: BlockPair>(
    alloc: Global,
    form: AgreedForm,
    pair: &B,
    key: &[u8],
) -> Result<Vec<u8>, Fail> {
    let mut text = Vec::new(alloc);
    convert_into(&Conversion::Wrap(form), pair, key, &mut text)?;
    Ok(text)
}

/// Runs an operation over its files. Returns its result, and the files as it left them.
pub fn run<'a, W: Write>(
    alloc: Global,
    case: &Case<'_>,
    files: [Trickle<'a>; 3],
    out: &mut W,
) -> (Answer, [Option<Trickle<'a>>; 3]) {
    let Case(what, [notation, kek_notation], ..) = *case;
    let [kek, new_kek, mut input] = files;
    let keks = Keks {
        notation: kek_notation,
        kek,
        new_kek: matches!(what, What::Rewrap { .. }).then_some(new_kek),
    };
    let mut operation = Operation { what, keks };
    let done = operation
        .run(alloc, notation, &mut input, out)
        .map(|outcome| outcome.result);
    let Keks { kek, new_kek, .. } = operation.keks;
    (done, [Some(kek), new_kek, Some(input)])
}

impl<'a> Case<'a> {
    /// Returns the files as readers that give at most `size` bytes per read.
    pub fn files(&self, size: usize) -> [Trickle<'a>; 3] {
        let [kek, new_kek, input] = self.2;
        [
            Trickle::in_pieces(kek, size),
            Trickle::in_pieces(new_kek, size),
            Trickle::in_pieces(input, size),
        ]
    }

    /// Returns whether the operation reads this file. Only a rewrap reads a new KEK, and no file is
    /// read after a refused KEK.
    pub fn reads(&self, at: usize) -> bool {
        match self.3 {
            Err(JobFault::KekFile(_) | JobFault::KekLength) => at == 0,
            Err(JobFault::NewKekFile(_) | JobFault::NewKekLength) => at < 2,
            _ => at != 1 || matches!(self.0, What::Rewrap { .. }),
        }
    }

    /// Checks the result and the output of the case, with readers and a writer that take at most
    /// `size` bytes per call. The operation reads at most one byte past the limit of a file, and
    /// does not flush.
    pub fn holds(&self, rt: &impl Abort, alloc: Global, size: usize) {
        let Case(_, _, bytes, wanted, output) = *self;
        let mut out = Narrow::in_pieces(alloc, size);
        let (done, files) = run(alloc, self, self.files(size), &mut out);
        assert!(rt; done == wanted, "{wanted:?}, {size} bytes a read");
        assert!(rt; out.out() == output && !out.is_flushed, "{wanted:?}");
        for at in 0..3 {
            if let Some(file) = &files[at] {
                let most = if self.reads(at) { 4_194_305 } else { 0 };
                let left = bytes[at].len().saturating_sub(most);
                assert!(rt; file.left.len() == left, "{wanted:?}, file {at}");
                assert!(rt; file.is_unread != self.reads(at), "file {at}");
            }
        }
    }
}
