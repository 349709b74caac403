//! The calls for one key: each does what its operation does.

use super::cases::{Answer, Case};
use super::jobs::{jobs, rewraps};
use crate::job::{Direction, Job, Task, run_job, run_rewrap, run_with};
use crate::outcome::JobFault;
use crate::what::{Conversion, What};
use key_wrap_core::{AgreedForm, Form, InitialValue, RewrapForms};
use std::alloc::Global;
use std::process::Abort;
use test_doubles::Narrow;

#[test]
fn each_case_has_its_answer_by_the_fixed_calls(rt: HostRuntime) {
    for case in &jobs() {
        call(&rt, rt.alloc(), case);
    }
    for case in &rewraps() {
        call(&rt, rt.alloc(), case);
    }
}

fn call(rt: &impl Abort, alloc: Global, case: &Case<'_>) {
    // One cause for both lengths, of the wrapped key and of its key.
    let wanted = match case.3 {
        Err(JobFault::KeyNotPlain) => Err(JobFault::BadLength),
        wanted => wanted,
    };
    let mut out = Narrow::in_pieces(alloc, 7);
    if let Some(done) = by_default(alloc, case, &mut out) {
        assert!(rt; done == wanted && out.out() == case.4, "{wanted:?}");
    }
    let mut out = Narrow::in_pieces(alloc, 7);
    if let Some(done) = with_iv(alloc, case, &mut out) {
        assert!(rt; done == wanted && out.out() == case.4, "{wanted:?}");
    }
}

// Runs a plain case by the call that takes an initial value.
fn with_iv(alloc: Global, case: &Case<'_>, out: &mut Narrow) -> Option<Answer> {
    let Case(what, [input, kek], ..) = *case;
    let (direction, iv) = match &what {
        What::Convert(Conversion::Wrap(AgreedForm::Plain(iv))) => (Direction::Wrap, iv),
        What::Convert(Conversion::Unwrap(AgreedForm::Plain(iv))) => (Direction::Unwrap, iv),
        _ => return None,
    };
    let [mut key, _, mut text] = case.files(7);
    Some(run_with(alloc, iv, direction, input, kek, &mut key, &mut text, out))
}

// Runs a case by the call that takes the default initial value.
fn by_default(alloc: Global, case: &Case<'_>, out: &mut Narrow) -> Option<Answer> {
    let Case(what, [input, kek], ..) = *case;
    let [mut key, mut new_key, mut text] = case.files(7);
    let (job, form) = match &what {
        What::Convert(Conversion::Wrap(form)) => (Job::Wrap, own_form(form)?),
        What::Convert(Conversion::Unwrap(form)) => (Job::Unwrap, own_form(form)?),
        What::Check(_) => (Job::Check, Form::Plain),
        What::Rewrap {
            forms: RewrapForms::Changed { old, new },
            pass_new: false,
        } => {
            let (old, new) = (own_form(old)?, own_form(new)?);
            let (old_kek, new_kek, text) = (&mut key, &mut new_key, &mut text);
            return Some(run_rewrap(alloc, old, new, input, kek, old_kek, new_kek, text, out));
        }
        _ => return None,
    };
    let task = Task {
        job,
        form,
        input,
        kek,
    };
    Some(run_job(alloc, task, &mut key, &mut text, out))
}

// Returns the form, if it has the default initial value.
fn own_form(form: &AgreedForm) -> Option<Form> {
    match form {
        AgreedForm::Plain(iv) => (*iv == InitialValue::default()).then_some(Form::Plain),
        AgreedForm::Padded => Some(Form::Padded),
    }
}
