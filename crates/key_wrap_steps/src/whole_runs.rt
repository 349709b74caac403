//! The theorem of the steps, about the definitions only: a whole run makes the standard's wrapping,
//! and a whole unwrapping leads back from it.

ghost use Rattle.std.specs.Prelude.{ℕ, ◌+◌, ◌++◌, Bool, List, Result, length, take};
ghost use Rattle.block_pair.specs.Pair.{AreInverse};
ghost use Rattle.key_wrap_core.specs.Rewrap.{IsRewrapping};
ghost use Rattle.key_wrap_steps.specs.RewrapPhases.{RewrapAt, RewrapRun};
ghost use Rattle.key_wrap_core.specs.Lengths.{IsPlainKeyLength, IsPaddedKeyLength};
ghost use Rattle.key_wrap_core.specs.Plain.{Plain};
ghost use Rattle.key_wrap_core.specs.Padded.{Padded, aiv, padded};
ghost use Rattle.key_wrap_core.specs.PaddedRegisters.{PaddedRegisters};
ghost use Rattle.key_wrap_core.specs.BlockCalls.{block_calls};
ghost use Rattle.key_wrap_core.specs.Steps.{WrapRun, UnwrapRun};

use key_wrap_core::{Refusal, RewrapForms, Rewrapped};

/// Says that all steps of a wrapping, six for each 8 bytes of the key, or one for one word, end in the
/// wrapping of the key, for every E. It does nothing.
pub fn whole_wrap_law()
    ensures plain { (E : List ℕ → List ℕ) (iv : ℕ) (key : List ℕ) (registers block : ℕ → List ℕ)
        → IsPlainKeyLength (length key)
        → WrapRun E iv key registers block
        → let all = block_calls (8 + length key) in
        Plain E iv key (take 8 (block all) ++ registers all) }
    ensures padded { (E : List ℕ → List ℕ) (key : List ℕ) (registers block : ℕ → List ℕ)
        → IsPaddedKeyLength (length key)
        → WrapRun E (aiv (length key)) (padded key) registers block
        → let all = block_calls (8 + length (padded key)) in
        Padded E key (take 8 (block all) ++ registers all) }
{}

/// Says that all steps of an unwrapping lead back to the initial value and the registers of which the
/// text is the wrapping, for every E. It does nothing.
pub fn whole_unwrap_law()
    ensures { (E : List ℕ → List ℕ) (text : List ℕ) (registers block : ℕ → List ℕ)
        → UnwrapRun E text registers block
        → PaddedRegisters E (take 8 (block 0) ++ registers 0) text }
{}

/// Says that all calls of a rewrapping, for a step or between two runs, end in what `rewrap` promises, for
/// every two permutations. It does nothing.
pub fn whole_rewrap_law()
    ensures { (pass_new : Bool) (forms : RewrapForms) (E D F G : List ℕ → List ℕ) (text after : List ℕ)
        (calls : ℕ) (at : ℕ → RewrapAt) (outcome : Result Rewrapped Refusal)
        → AreInverse E D → AreInverse F G → RewrapRun pass_new forms E F text calls at outcome after
        → IsRewrapping pass_new forms E F text outcome after }
{}
