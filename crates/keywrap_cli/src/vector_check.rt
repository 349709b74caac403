//! Checks a published vector in both directions.

ghost use Rattle.std.specs.Prelude.{◌≡◌, ◌≢◌, ◌↔◌, length, Some, IfOk, IsTrue, MatchOption};
ghost use Rattle.block_pair.specs.Words.{IsBlock};
ghost use Rattle.keywrap_cli.specs.VectorReport.{Codes, Converts, Gave, LibraryGives, IsReproduced, IsMissed, IsRight, IsVerdict, bytes_of};
ghost use Rattle.test_vectors.specs.Vectors.{TestVector, shown};

use crate::convert::convert_into;
use crate::job::Direction;
use crate::kek_file::Aes;
use block_pair::BlockPair;
use key_lines::LineFault;
use key_wrap_core::{AgreedForm, Form};
use std::alloc::{AllocError, Global};
use test_vectors::{Algorithm, Vector};

/// The calls that a check of vectors makes.
pub trait VectorCalls {
    /// What a call gave. It has no meaning here, so that a check has to make the call.
    ghost gave: { Gave };

    /// Wraps or encrypts the input, or unwraps or decrypts it. Returns `None` if it is refused.
    fn call(
        alloc: Global,
        direction: Direction,
        algorithm: Algorithm,
        key: &[u8],
        input: &[u8],
    ) -> Result<Option<Vec<u8>>, AllocError>
        ensures { IfOk result (λ found. gave direction algorithm key.now input.now
            (bytes_of found)) };
}

/// The calls of this crate, over its AES.
#[derive(Clone, Copy)]
pub struct Library;

impl VectorCalls for Library {
    ghost gave = { LibraryGives };

    fn call(
        alloc: Global,
        direction: Direction,
        algorithm: Algorithm,
        key: &[u8],
        input: &[u8],
    ) -> Result<Option<Vec<u8>>, AllocError> {
        let Ok(aes) = Aes::new(key) else {
            return Ok(None);
        };
        match algorithm {
            Algorithm::KeyWrap => convert(alloc, direction, Form::Plain, &aes, input),
            Algorithm::KeyWrapWithPadding => convert(alloc, direction, Form::Padded, &aes, input),
            Algorithm::Encryption => code(alloc, direction, &aes, input),
        }
    }
}

/// A law: what the calls of this crate gave is right exactly if they gave the bytes of the vector.
#[tactic(auto, using(crate::proofs::VectorLaws::found_right, crate::proofs::VectorLaws::missed_wrong))]
pub fn library_law()
    ensures found { (v : TestVector) → IsReproduced ⟦<Library as VectorCalls>⟧.gave v → IsRight v }
    ensures missed { (v : TestVector) → IsMissed ⟦<Library as VectorCalls>⟧.gave v → ¬ IsRight v }
{}

/// Returns whether a vector is right: calls give its output for its input, and its input for its
/// output.
pub fn is_right<C: VectorCalls>(alloc: Global, vector: &Vector<'_>) -> Result<bool, AllocError>
    ensures { IfOk result (λ right. IsVerdict C.gave (shown vector.now) right) }
{
    let (algorithm, key) = (vector.algorithm, vector.key);
    let there = C::call(alloc, Direction::Wrap, algorithm, key, vector.input)?;
    if !is(&there, vector.output) {
        return Ok(false);
    }
    let back = C::call(alloc, Direction::Unwrap, algorithm, key, vector.output)?;
    Ok(is(&back, vector.input))
}

// Returns whether a call gave these bytes.
fn is(found: &Option<Vec<u8>>, wanted: &[u8]) -> bool
    ensures { IsTrue result ↔ (bytes_of found.now ≡ Some wanted.now) }
{
    match found {
        Some(bytes) => bytes.as_slice() == wanted,
        None => false,
    }
}

fn convert<B: BlockPair>(
    alloc: Global,
    direction: Direction,
    form: Form,
    pair: &B,
    input: &[u8],
) -> Result<Option<Vec<u8>>, AllocError>
    ensures { IfOk result (λ found. Converts direction form (B.encrypted pair.now) input.now
        (bytes_of found)) }
{
    let conversion = direction.conversion(AgreedForm::by_default(form));
    let mut output = Vec::new(alloc);
    match convert_into(&conversion, pair, input, &mut output) {
        Ok(()) => Ok(Some(output)),
        Err(LineFault::Refused(_)) => Ok(None),
        Err(_) => Err(AllocError),
    }
}

// Encrypts or decrypts a block.
fn code<B: BlockPair>(
    alloc: Global,
    direction: Direction,
    pair: &B,
    input: &[u8],
) -> Result<Option<Vec<u8>>, AllocError>
    ensures { IfOk result (λ found. Codes direction (B.encrypted pair.now) input.now
        (bytes_of found)) }
{
    let Some(block) = block_of(input) else {
        return Ok(None);
    };
    let coded = code_block(direction, pair, block);
    Ok(Some(coded.to_vec(alloc)?))
}

fn code_block<B: BlockPair>(direction: Direction, pair: &B, block: [u8; 16]) -> [u8; 16]
    requires { IsBlock block }
    ensures { Codes direction (B.encrypted pair.now) block (Some result) }
{
    match direction {
        Direction::Wrap => pair.enc(block),
        Direction::Unwrap => pair.dec(block),
    }
}

fn block_of(bytes: &[u8]) -> Option<[u8; 16]>
    ensures { MatchOption result (length bytes.now ≢ 16)
        (λ block. (block ≡ bytes.now) × IsBlock bytes.now) }
{
    if bytes.len() != 16 {
        return None;
    }
    let mut block = [0; 16];
    block.copy_from_slice(bytes);
    Some(block)
}
