//! The contents of the tables, and the vectors of the standard.

ghost use Rattle.std.specs.Prelude.{◌≡◌, bit_xor};
ghost use Rattle.fips197.specs.Field.{product};
ghost use Rattle.aes_vector.specs.Tables.{EntersInverse, EntersMaskedInverse, EntersTower};
ghost use Rattle.aes_vector.specs.Tables.{FindsInverse, FindsInverseMultiple, FindsMultiple};
ghost use Rattle.aes_vector.specs.Tables.{FindsSBox, IsInversion};

use crate::tables::*;
use crate::{KeySchedule, LentAes, VectorAes};
use block_pair::BlockPair;
use std::process::Abort;
use std::test::Fail;
use test_vectors::{Algorithm, Vector, published};

// What the tables hold: the checker computes it at every byte.
fn tables_are_those_of_the_tower()
    // The powers of w, and the conjugate v: u to the power 16, by four squares.
    ensures basis { (product 0x0D 0x0D ≡ 0x51) × (product 0x51 0x0D ≡ 0xB0) }
    ensures conjugate { let u4 = product (product 2 2) (product 2 2) in
        product (product u4 u4) (product u4 u4) ≡ 0x5E }
    ensures ratio { product 0xED (product 0x02 0x5E)
        ≡ bit_xor (product 0x02 0x02) (product 0x5E 0x5E) }
    ensures inversion { (IsInversion INV 1) × (IsInversion INVA 0xED) }
    ensures into_the_tower { (EntersTower TOWER_LOW TOWER_HIGH 0)
        × (EntersTower MASKED_TOWER_LOW TOWER_HIGH 0x63) }
    ensures into_the_inverse { (EntersInverse INV_LOW INV_HIGH 1)
        × (EntersInverse INV_ELEVEN_LOW INV_ELEVEN_HIGH 11)
        × (EntersInverse INV_THIRTEEN_LOW INV_THIRTEEN_HIGH 13)
        × (EntersInverse INV_NINE_LOW INV_NINE_HIGH 9) }
    ensures into_the_masked_inverse { (EntersMaskedInverse MASKED_INV_LOW INV_HIGH 1)
        × (EntersMaskedInverse MASKED_INV_FOURTEEN_LOW INV_FOURTEEN_HIGH 14) }
    ensures multiples { (FindsMultiple ONE_I ONE_J 1) × (FindsMultiple TWO_I TWO_J 2) }
    ensures s_box { FindsSBox S_I S_J }
    ensures inverse_multiples { (FindsInverseMultiple FOURTEEN_I FOURTEEN_J 14)
        × (FindsInverseMultiple ELEVEN_I ELEVEN_J 11)
        × (FindsInverseMultiple THIRTEEN_I THIRTEEN_J 13)
        × (FindsInverseMultiple NINE_I NINE_J 9) }
    ensures inverse { FindsInverse INV_S_I INV_S_J }
{}

#[test]
fn tables_hold_what_they_are_named_for() {
    tables_are_those_of_the_tower();
}

#[test]
fn answers_the_standards_vectors(rt: HostRuntime) -> Result<(), Fail> {
    for vector in &published() {
        if let Algorithm::Encryption = vector.algorithm {
            let owned = VectorAes::new(vector.key)?;
            gives_the_vector(&rt, &owned, owned.rounds(), vector)?;
            let mut schedule = KeySchedule::new();
            let lent = LentAes::new(vector.key, &mut schedule)?;
            gives_the_vector(&rt, &lent, lent.rounds(), vector)?;
        }
    }
    Ok(())
}

// Checks that a cipher gives the output of a vector for its input, and the way back.
fn gives_the_vector(
    rt: &impl Abort,
    aes: &impl BlockPair,
    rounds: u8,
    vector: &Vector,
) -> Result<(), Fail> {
    let plaintext: [u8; 16] = vector.input.try_into()?;
    let ciphertext: [u8; 16] = vector.output.try_into()?;
    assert_eq!(rt; rounds as usize, vector.key.len() / 4 + 6);
    assert_eq!(rt; aes.enc(plaintext), ciphertext, "{}", vector.name);
    assert_eq!(rt; aes.dec(ciphertext), plaintext, "{}", vector.name);
    Ok(())
}

// To the contract a refused key may leave anything in that memory.
#[test]
fn a_refused_key_leaves_its_room(rt: HostRuntime) {
    let mut schedule = KeySchedule::new();
    for len in [0, 15, 17, 33] {
        assert!(rt;
            LentAes::new(&[1; 33][..len], &mut schedule).is_err(),
            "{len} bytes"
        );
        assert!(rt; schedule.words.iter().all(|word| *word == 0), "{len} bytes");
        for key in &schedule.keys {
            assert!(rt; key.enc.to_array() == [0; 16], "{len} bytes");
            assert!(rt; key.dec.to_array() == [0; 16], "{len} bytes");
        }
    }
}
