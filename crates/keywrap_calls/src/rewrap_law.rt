//! The theorem of the calls that rewrap run by run: together they do what `rewrap` does.

ghost use Rattle.std.specs.Prelude.{◌≡◌, ℕ, ℤ, List, Result, length};
ghost use Rattle.block_pair.specs.Pair.{AreInverse};
ghost use Rattle.key_wrap_steps.specs.RewrapPhases.{CanBegin};
ghost use Rattle.keywrap_calls.specs.Rewraps.{AreFlags, AreKeks, Rewraps, already_of, forms_of, passes_new, rewrap_status};
ghost use Rattle.keywrap_calls.specs.RewrapSteps.{end_status};
ghost use Rattle.keywrap_calls.specs.RewrapCalls.{CallAt, RewrapCalls};

use key_wrap_core::{Refusal, Rewrapped};

/// Says that the calls for a rewrapping, each step with the AES that the phase asks for, end in what
/// `rewrap` promises, for every two permutations. It does nothing.
pub fn rewrap_calls_law()
    ensures { (E D F G : List ℕ → List ℕ) (old_kek new_kek : List ℕ) (flags : ℕ) (text : List ℕ)
        → (calls : ℕ) (at : ℕ → CallAt) (last : CallAt) (status : ℤ)
        → AreInverse E D → AreInverse F G → AreKeks old_kek new_kek → AreFlags flags
        → CanBegin (passes_new flags) (forms_of flags) (length text)
        → RewrapCalls E F flags text calls at last status
        → (outcome : Result Rewrapped Refusal) × (status ≡ end_status outcome)
        × Rewraps E F old_kek new_kek flags text last.now (already_of outcome) (rewrap_status outcome) }
{}
