//! Why a run was refused: the fault, the file that caused it, and the reason.

ghost use Rattle.std.specs.Prelude.{◌≡◌, ◌≢◌};
ghost use Rattle.keywrap_cli.specs.Faults.{program_status};
ghost use Rattle.keywrap.specs.Session.{open_fault_of};

use crate::command::Run;
use crate::hints::{
    equal_lines, has_agreed_iv, input_notation_hint, integrity_hint, kek_notation_hint,
    raw_input_hint, raw_kek_hint,
};
use key_files::{FileFault, MAX_FILE};
use key_lines::LineFault;
use key_wrap_core::AgreedForm::{self, Padded, Plain};
use key_wrap_core::{MAX_KEY, Refusal, RewrapForms};
use keywrap_args::Escaped;
use keywrap_cli::{Conversion, JobFault, Keks, Notation, ProgramFault, What};
use keywrap_io::{FileRole, Inspected, Inspection, Reason};
use std::fmt;

// The reason for a key whose length no plain key has.
const KEY_NOT_PLAIN: &str =
    "its key cannot be wrapped in the plain form: 16 bytes or more, a multiple of 8";

/// The file that caused a fault, and the reason: the second line of a refusal.
pub type Cause = (FileRole, Reason);

/// Returns the cause of a fault of a run with these open KEK files.
pub fn fault_cause<F>(
    run: &Run<'_>,
    keks: &Keks<Inspected<F>>,
    input: &Inspection,
    output: &Inspection,
    fault: &ProgramFault,
) -> Option<Cause> {
    match fault {
        ProgramFault::Job(JobFault::Write { .. })
        | ProgramFault::Write { .. }
        | ProgramFault::Unsent { .. } => {
            Some((FileRole::Output, Reason::from_os_error(output.os_error)))
        }
        ProgramFault::Job(fault) => job_cause(run, keks, input, *fault),
        ProgramFault::Line(line) => Some(line_cause(run, keks, input, line.fault)),
        ProgramFault::NoLines => Some((FileRole::Input, Reason::Text("is empty"))),
        _ => None,
    }
}

/// Returns the fault of a file that cannot be opened.
pub fn open_fault(role: FileRole) -> ProgramFault
    ensures { result ≡ open_fault_of role }
{
    match role {
        FileRole::Kek => ProgramFault::KekOpen,
        FileRole::NewKek => ProgramFault::NewKekOpen,
        FileRole::Input => ProgramFault::InputOpen,
        FileRole::Output => ProgramFault::OutputOpen,
    }
}

/// Prints the line of a fault, and returns its exit status. Nothing is left to do if standard error
/// is closed.
pub fn print_fault<R: Eprint>(rt: &R, fault: &ProgramFault) -> u8
    ensures status { result ≡ program_status fault.now }
    ensures failed { result ≢ 0 }
{
    let _ = rt.eprintln(fault);
    fault.status()
}

fn job_cause<F>(
    run: &Run<'_>,
    keks: &Keks<Inspected<F>>,
    input: &Inspection,
    fault: JobFault,
) -> Option<Cause> {
    let kek = &keks.kek.inspection;
    let new_kek = match &keks.new_kek {
        Some(file) => &file.inspection,
        None => kek,
    };
    Some(match fault {
        JobFault::KekFile(fault) => (FileRole::Kek, kek_reason(keks.notation, fault, kek)),
        JobFault::KekLength => (FileRole::Kek, kek_length_reason(keks.notation, kek)),
        JobFault::NewKekFile(fault) => {
            (FileRole::NewKek, kek_reason(keks.notation, fault, new_kek))
        }
        JobFault::NewKekLength => (FileRole::NewKek, kek_length_reason(keks.notation, new_kek)),
        JobFault::InputFile(fault) => {
            let hint = input_notation_hint(run.how.notation(), input);
            (
                FileRole::Input,
                file_reason(run.how.notation(), fault, input, hint),
            )
        }
        JobFault::BadLength => (FileRole::Input, length_reason(run, input)),
        JobFault::Integrity => integrity_cause(run, keks, input),
        JobFault::KeyNotPlain => (FileRole::Input, Reason::Text(KEY_NOT_PLAIN)),
        JobFault::Write { .. } | JobFault::Memory => return None,
    })
}

fn line_cause<F>(
    run: &Run<'_>,
    keks: &Keks<Inspected<F>>,
    input: &Inspection,
    fault: LineFault<Refusal>,
) -> Cause {
    let reason = match fault {
        LineFault::Input(FileFault::OddDigits) | LineFault::Memory | LineFault::TooManyLines => {
            Reason::NameOnly
        }
        // The bytes of lines are not counted, so there is no hint.
        LineFault::Input(fault) => file_reason(run.how.notation(), fault, input, None),
        LineFault::Refused(Refusal::Integrity) => return integrity_cause(run, keks, input),
        LineFault::Refused(Refusal::BadLength) => Reason::Text(legal_lengths(run.operation.what)),
        LineFault::Refused(Refusal::KeyNotPlain) => Reason::Text(KEY_NOT_PLAIN),
    };
    (FileRole::Input, reason)
}

fn kek_reason(notation: Notation, fault: FileFault, kek: &Inspection) -> Reason {
    file_reason(notation, fault, kek, kek_notation_hint(notation, kek))
}

// Returns the reason for a fault of a file. The hint is for a file that is not in this notation.
fn file_reason(
    notation: Notation,
    fault: FileFault,
    seen: &Inspection,
    hint: Option<&'static str>,
) -> Reason {
    match fault {
        FileFault::Read => Reason::from_os_error(seen.os_error),
        FileFault::TooLong => Reason::MoreThan(MAX_FILE),
        FileFault::OddDigits => Reason::HexDigits(seen.hex_digits),
        FileFault::BadDigit { .. }
        | FileFault::BadCharacter { .. }
        | FileFault::BehindPadding { .. }
        | FileFault::BadBase64Length
        | FileFault::TrailingBits => Reason::NotIn(name_of(notation), hint),
        FileFault::Memory => Reason::NameOnly,
    }
}

fn name_of(notation: Notation) -> &'static str {
    match notation {
        Notation::Raw => "raw bytes",
        Notation::Hex => "hex",
        Notation::Base64 => "base64",
        Notation::Base64Url => "base64url",
    }
}

fn kek_length_reason(notation: Notation, kek: &Inspection) -> Reason {
    Reason::KekLength(denoted_bytes(notation, kek), raw_kek_hint(notation, kek))
}

// Returns the number of bytes that a file denotes if it was read whole.
fn denoted_bytes(notation: Notation, seen: &Inspection) -> u64 {
    match notation {
        Notation::Raw => seen.bytes,
        Notation::Hex => seen.hex_digits / 2,
        Notation::Base64 | Notation::Base64Url => seen.base64.saturating_mul(3) / 4,
    }
}

fn length_reason(run: &Run<'_>, input: &Inspection) -> Reason {
    let what = run.operation.what;
    let bytes = denoted_bytes(run.how.notation(), input);
    let (name, most) = match what {
        What::Convert(Conversion::Wrap(_)) => ("a key", MAX_KEY),
        _ => ("a wrapped key", MAX_KEY + 8),
    };
    if bytes > most as u64 {
        Reason::TooLong(bytes, name, most)
    } else {
        let hint = raw_input_hint(run.how.notation(), input);
        Reason::Length(bytes, legal_lengths(what), hint)
    }
}

fn legal_lengths(what: What) -> &'static str {
    match (what, given_form(what)) {
        (What::Convert(Conversion::Wrap(_)), Some(Plain(_))) =>
            "a plain key has 16 or more, a multiple of 8",
        (What::Convert(Conversion::Wrap(_)), _) => "a key has 1 or more",
        (_, Some(Plain(_))) => "a plain wrapped key has 24 or more, a multiple of 8",
        (_, Some(Padded)) => "a padded wrapped key has 16 or more, a multiple of 8",
        (_, None) => "a wrapped key has 16 or more, a multiple of 8",
    }
}

// Returns the form of the key or of the wrapped key that is read, unless both forms are tried.
fn given_form(what: What) -> Option<AgreedForm> {
    match what {
        What::Convert(Conversion::Wrap(form) | Conversion::Unwrap(form))
        | What::Rewrap {
            forms: RewrapForms::Changed { old: form, .. },
            ..
        } => Some(form),
        _ => None,
    }
}

// The likely causes, most likely first: a KEK or an input that was read in the wrong notation, several
// wrapped keys that were read as one, another form or KEK.
fn integrity_cause<F>(run: &Run<'_>, keks: &Keks<Inspected<F>>, input: &Inspection) -> Cause {
    if let Some(hint) = raw_kek_hint(keks.notation, &keks.kek.inspection) {
        return (FileRole::Kek, Reason::Text(hint));
    }
    if let Some(hint) = raw_input_hint(run.how.notation(), input) {
        return (FileRole::Input, Reason::Text(hint));
    }
    if let Some(lines) = equal_lines(run.how.notation(), input) {
        return (FileRole::Input, Reason::EqualLines(lines));
    }
    (FileRole::Input, not_valid(&run.operation.what))
}

fn not_valid(what: &What) -> Reason {
    Reason::NotValid(wrapped_kind(given_form(*what)), integrity_hint(what))
}

fn wrapped_kind(form: Option<AgreedForm>) -> &'static str {
    match &form {
        Some(form) if has_agreed_iv(form) => "wrapped key under this KEK and --iv",
        Some(Plain(_)) => "plain wrapped key under this KEK",
        Some(Padded) => "padded wrapped key under this KEK",
        None => "wrapped key in either form under this KEK",
    }
}

/// Prints the second line of a refusal. Nothing is lost if standard error is closed.
pub fn print_cause<R: Eprint>(rt: &R, run: &Run<'_>, fault: &ProgramFault, cause: Cause) {
    let (role, reason) = cause;
    let name = ShownName { run, role };
    let _ = match typed_kek_hint(run, fault) {
        Some(hint) => eprintln!(rt; "  {hint}{reason}"),
        None => eprintln!(rt; "  {name}{reason}"),
    };
}

// Returns the hint on a KEK file that cannot be opened, if its name looks like a KEK.
fn typed_kek_hint(run: &Run<'_>, fault: &ProgramFault) -> Option<&'static str> {
    match fault {
        ProgramFault::KekOpen if is_kek_name(run, FileRole::Kek) => {
            Some("--kek takes a file; the value looks like a KEK and is not shown")
        }
        ProgramFault::NewKekOpen if is_kek_name(run, FileRole::NewKek) => {
            Some("--new-kek takes a file; the value looks like a KEK and is not shown")
        }
        _ => None,
    }
}

// Returns whether the name of a file of a run looks like a KEK.
fn is_kek_name(run: &Run<'_>, role: FileRole) -> bool {
    match run.file_name(role) {
        Some(name) => is_kek(name),
        None => false,
    }
}

/// The name of a file of a run, as a terminal may show it.
#[derive(Clone, Copy)]
pub struct ShownName<'a> {
    pub run: &'a Run<'a>,
    pub role: FileRole,
}

impl fmt::Display for ShownName<'_> {
    fn fmt<W: fmt::Write>(&self, f: &mut fmt::Formatter<W>) -> fmt::Result {
        let role = self.role;
        match (self.run.file_name(role), role) {
            (Some(name), FileRole::Kek | FileRole::NewKek) if is_kek(name) => {
                write!(f, "(the name of {role} is not shown: it looks like a KEK)")
            }
            (Some(name), _) if name.is_empty() => f.write_str("''"),
            (Some(name), _) => Escaped(name).fmt(f),
            (None, FileRole::Output) => f.write_str("standard output"),
            (None, _) => f.write_str("standard input"),
        }
    }
}

// Returns whether a file name may be a KEK that was typed instead: in hex, or in base64 or base64url,
// with or without padding.
fn is_kek(name: &str) -> bool {
    let symbols = name.trim_end_matches('=');
    match (symbols.len(), name.len()) {
        (_, 32 | 48 | 64) if name.bytes().all(|byte| byte.is_ascii_hexdigit()) => true,
        (22, 22 | 24) | (32, 32) | (43, 43 | 44) => symbols.bytes().all(is_base64_symbol),
        _ => false,
    }
}

fn is_base64_symbol(byte: u8) -> bool {
    byte.is_ascii_alphanumeric() || matches!(byte, b'+' | b'/' | b'-' | b'_')
}
