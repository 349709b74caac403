//! The columns of the state as words, and what a round makes of each (FIPS 197, sections 5.1 and
//! 5.3), by the word tables.

ghost use Rattle.std.specs.Prelude.{◌≡◌, length};
ghost use Rattle.fips197.specs.Words.{block_of};
ghost use Rattle.aes_block.specs.Columns.{diagonal};
ghost use Rattle.aes_block.specs.Columns.{inv_last_column, inv_round_column};
ghost use Rattle.aes_block.specs.Columns.{last_column, round_column};

use crate::word_tables::{inv_mixed, mixed_sbox};
use crate::{inv_sbox, sbox};
use byteorder::{BigEndian, ByteOrder};

// The columns of a block, lent as a slice: of an array by value a proof doesn't know that all of
// its 16 elements are bytes.
pub(crate) fn columns_of(block: &[u8]) -> [u32; 4]
    requires { length block.now ≡ 16 }
    ensures { block_of result ≡ block.now }
{
    let mut columns = [0; 4];
    BigEndian::read_u32_into(block, &mut columns);
    columns
}

// The block of four columns.
pub(crate) fn block_of(columns: [u32; 4]) -> [u8; 16]
    ensures { result ≡ block_of columns }
{
    let mut block = [0; 16];
    BigEndian::write_u32_into(&columns, &mut block);
    block
}

// A column after a round, from the columns in which ShiftRows finds its rows 0 to 3.
pub(crate) fn round_column(rows_from: [u32; 4], key: u32) -> u32
    ensures { result ≡ round_column rows_from key }
{
    let [a, b, c, d] = diagonal(rows_from);
    mixed_sbox(a)
        ^ mixed_sbox(b).rotate_right(8)
        ^ mixed_sbox(c).rotate_right(16)
        ^ mixed_sbox(d).rotate_right(24)
        ^ key
}

// A column after the last round, which does not mix it.
pub(crate) fn last_column(rows_from: [u32; 4], key: u32) -> u32
    ensures { result ≡ last_column rows_from key }
{
    let [a, b, c, d] = diagonal(rows_from);
    u32::from_be_bytes([sbox(a), sbox(b), sbox(c), sbox(d)]) ^ key
}

// A column after a round of the inverse cipher, from the columns in which InvShiftRows finds its
// rows 0 to 3.
pub(crate) fn inv_round_column(rows_from: [u32; 4], key: u32) -> u32
    ensures { result ≡ inv_round_column rows_from key }
{
    let [a, b, c, d] = diagonal(rows_from);
    let [key_a, key_b, key_c, key_d] = key.to_be_bytes();
    inv_mixed(inv_sbox(a) ^ key_a)
        ^ inv_mixed(inv_sbox(b) ^ key_b).rotate_right(8)
        ^ inv_mixed(inv_sbox(c) ^ key_c).rotate_right(16)
        ^ inv_mixed(inv_sbox(d) ^ key_d).rotate_right(24)
}

// A column after the last round of the inverse cipher, which does not mix it.
pub(crate) fn inv_last_column(rows_from: [u32; 4], key: u32) -> u32
    ensures { result ≡ inv_last_column rows_from key }
{
    let [a, b, c, d] = diagonal(rows_from);
    u32::from_be_bytes([inv_sbox(a), inv_sbox(b), inv_sbox(c), inv_sbox(d)]) ^ key
}

// The byte of row 0 from the first word, of row 1 from the second, and so on.
fn diagonal(rows_from: [u32; 4]) -> [u8; 4]
    ensures { result ≡ diagonal rows_from }
{
    let [a, b, c, d] = rows_from;
    [
        a.to_be_bytes()[0],
        b.to_be_bytes()[1],
        c.to_be_bytes()[2],
        d.to_be_bytes()[3],
    ]
}
