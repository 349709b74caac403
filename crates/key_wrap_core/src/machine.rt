//! The machine of RFC 3394, section 2.2, in its indexed form: A is a word, and the registers R[1]
//! .. R[n] stay in place in a slice.

ghost use Rattle.std.specs.Prelude.{◌≡◌, ◌+◌, ◌++◌, length};
ghost use Rattle.block_pair.specs.Metered.{counted};
ghost use Rattle.key_wrap_core.specs.Words.{word_bytes};
ghost use Rattle.key_wrap_core.specs.Lengths.{IsPlainTextLength, IsPaddedTextLength};
ghost use Rattle.key_wrap_core.specs.PaddedRegisters.{PaddedRegisters};
ghost use Rattle.key_wrap_core.specs.BlockCalls.{block_calls};

use crate::lengths::WORD;
use crate::steps::{
    first_block, last_block, step_count, step_registers, step_words, unstep_registers,
};
use block_pair::{BlockPair, Meter};
use byteorder::{BigEndian, ByteOrder};

// The key data in the registers become C1 .. Cn, and the result is C0 (RFC 3394, section 2.2.1; for
// one word RFC 5649, section 4.1).
pub(crate) fn machine_wrap<B: BlockPair>(meter: &mut Meter<B>, iv: u64, registers: &mut [u8]) -> u64
    requires { IsPaddedTextLength (8 + length registers.old) }
    ensures wrapped { PaddedRegisters (B.encrypted meter.old.pair)
        (word_bytes iv ++ registers.old) (word_bytes result ++ registers.new) }
    ensures meter { meter.new ≡ counted (block_calls (8 + length registers.old)) meter.old }
{
    if registers.len() > WORD {
        return wrap_words(meter, iv, registers);
    }
    let block = step_registers(registers, 0, meter.enc(first_block(iv, registers)));
    BigEndian::read_u64(&block)
}

// `machine_wrap` of two words and more: a loop that asks for the form in each step takes 6 to 10 % longer.
fn wrap_words<B: BlockPair>(meter: &mut Meter<B>, iv: u64, registers: &mut [u8]) -> u64
    requires { IsPlainTextLength (8 + length registers.old) }
    ensures wrapped { PaddedRegisters (B.encrypted meter.old.pair)
        (word_bytes iv ++ registers.old) (word_bytes result ++ registers.new) }
    ensures meter { meter.new ≡ counted (block_calls (8 + length registers.old)) meter.old }
{
    let mut block = first_block(iv, registers);
    for done in 0..6 * (registers.len() / WORD) {
        block = step_words(registers, done, meter.enc(block));
    }
    BigEndian::read_u64(&block)
}

// C1 .. Cn in the registers become the key data, and the result is the initial value (RFC 3394,
// section 2.2.2; for one word RFC 5649, section 4.2).
pub(crate) fn machine_unwrap<B: BlockPair>(
    meter: &mut Meter<B>,
    c0: u64,
    registers: &mut [u8],
) -> u64
    requires { IsPaddedTextLength (8 + length registers.old) }
    ensures wrapped { PaddedRegisters (B.encrypted meter.old.pair)
        (word_bytes result ++ registers.new) (word_bytes c0 ++ registers.old) }
    ensures meter { meter.new ≡ counted (block_calls (8 + length registers.old)) meter.old }
{
    let mut block = last_block(c0, registers);
    for left in (0..step_count(registers.len())).rev() {
        block = unstep_registers(registers, left, meter.dec(block));
    }
    BigEndian::read_u64(&block)
}
