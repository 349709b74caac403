//! Warnings about likely mistakes.

use crate::command::Run;
use crate::explain::ShownName;
use crate::hints::{raw_kek_hint, wrapped_key_hint};
use key_wrap_core::{AgreedForm, RewrapForms};
use keywrap_cli::{Conversion, How, Keks, What};
use keywrap_io::{FileRole, Inspected, Inspection, Reason};

const BECAME_PLAIN: &str =
    "keywrap: the new wrapped key is plain; with --keep-form or --new-padded it is padded";

const SAME_KEK: &str = "keywrap: the KEK and the new KEK are the same key: nothing changes";

/// Prints a line for each likely mistake in a run that succeeded: a KEK, or a key to wrap, that may
/// have been read in the wrong notation; several keys that were wrapped as one; a padded wrapped key
/// that became a plain one; a rewrap under the same KEK that changed nothing. Nothing is lost if
/// standard error is closed.
pub fn warn<R: Eprint, F>(
    rt: &R,
    run: &Run<'_>,
    keks: &Keks<Inspected<F>>,
    input: &Inspection,
    same_kek: bool,
) {
    warn_of_kek(rt, run, FileRole::Kek, &keks.kek);
    if let Some(new_kek) = &keks.new_kek {
        warn_of_kek(rt, run, FileRole::NewKek, new_kek);
    }
    if let (What::Convert(Conversion::Wrap(_)), How::Whole(_)) = (run.operation.what, run.how) {
        if let Some(reason) = wrapped_key_hint(run.how.notation(), input) {
            warn_of_file(rt, run, FileRole::Input, reason);
        }
    }
    if becomes_plain(run.operation.what) {
        let _ = rt.eprintln(BECAME_PLAIN);
    }
    if same_kek && run.operation.what.keeps_form() {
        let _ = rt.eprintln(SAME_KEK);
    }
}

// Returns whether a padded wrapped key becomes a plain one.
fn becomes_plain(what: What) -> bool {
    matches!(
        what,
        What::Rewrap {
            forms: RewrapForms::Changed {
                old: AgreedForm::Padded,
                new: AgreedForm::Plain(_),
            },
            ..
        }
    )
}

fn warn_of_kek<R: Eprint, F>(rt: &R, run: &Run<'_>, role: FileRole, kek: &Inspected<F>) {
    if let Some(hint) = raw_kek_hint(run.operation.keks.notation, &kek.inspection) {
        warn_of_file(rt, run, role, Reason::Text(hint));
    }
}

fn warn_of_file<R: Eprint>(rt: &R, run: &Run<'_>, role: FileRole, reason: Reason) {
    let name = ShownName { run, role };
    let _ = eprintln!(rt; "keywrap: {name}{reason}");
}
