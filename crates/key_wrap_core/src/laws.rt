//! Laws of the two forms: a key has one wrapped key, and a wrapped key one key, in one form.

ghost use Rattle.std.specs.Prelude.{◌≡◌, ℕ, List};
ghost use Rattle.block_pair.specs.Pair.{AreInverse};
ghost use Rattle.key_wrap_core.specs.Plain.{IsReserved, Plain};
ghost use Rattle.key_wrap_core.specs.Padded.{Padded};

/// Says that a key has one wrapped key under every E, whether or not E has an inverse. It does
/// nothing.
pub fn one_text_law()
    ensures plain { (E : List ℕ → List ℕ) (iv : ℕ) (key text other : List ℕ)
        → Plain E iv key text → Plain E iv key other → other ≡ text }
    ensures padded { (E : List ℕ → List ℕ) (key text other : List ℕ)
        → Padded E key text → Padded E key other → other ≡ text }
{}

/// Says that a wrapped key determines its key, and in the plain form also its initial value, under
/// every E that has an inverse. It does nothing.
pub fn one_key_law()
    ensures plain { (E D : List ℕ → List ℕ) (iv other_iv : ℕ) (key other text : List ℕ)
        → AreInverse E D
        → Plain E iv key text → Plain E other_iv other text → (other_iv ≡ iv) × (other ≡ key) }
    ensures padded { (E D : List ℕ → List ℕ) (key other text : List ℕ)
        → AreInverse E D
        → Padded E key text → Padded E other text → other ≡ key }
{}

/// Says that no wrapped key is one in both forms, under every E that has an inverse, if the initial
/// value of the plain form is not reserved. It does nothing.
pub fn one_form_law()
    ensures { (E D : List ℕ → List ℕ) (iv : ℕ) (key other text : List ℕ)
        → AreInverse E D → ¬ IsReserved iv → Plain E iv key text → ¬ Padded E other text }
{}
