//! The forms with the initial value that both ends agreed on, and the change from one to another.

ghost use Rattle.std.specs.Prelude.{◌≡◌};
ghost use Rattle.key_wrap_core.specs.Forms.{by_default};

use crate::forms::Form;
use crate::initial_value::InitialValue;
use crate::rewrapping::RewrapForms;

/// A form of key wrap with its initial value.
#[derive(Clone, Copy, Debug)]
pub enum AgreedForm {
    /// RFC 3394, with this initial value (section 2.2.3).
    Plain(InitialValue),
    /// RFC 5649: the initial value holds the key's length.
    Padded,
}

impl AgreedForm {
    /// The form with the default initial value.
    pub fn by_default(form: Form) -> AgreedForm
        ensures { result ≡ by_default form }
    {
        match form {
            Form::Plain => AgreedForm::Plain(InitialValue::default()),
            Form::Padded => AgreedForm::Padded,
        }
    }
}

impl RewrapForms {
    /// From one form to another, with the default initial value.
    pub fn by_default(old: Form, new: Form) -> RewrapForms
        ensures { result ≡ RewrapForms.Changed (by_default old) (by_default new) }
    {
        RewrapForms::Changed {
            old: AgreedForm::by_default(old),
            new: AgreedForm::by_default(new),
        }
    }
}
