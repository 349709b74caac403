//! AES made from a key-encryption key.

use crate::schedule::{Aes, ByTable};
use fips197::{BadKekLength, KeyInit, MAX_WORDS, ScheduleFault, write_schedule};

// The round keys are in the value itself.
impl KeyInit for Aes {
    type Schedule = ();

    fn new_in(kek: &[u8], _room: ()) -> Result<Aes, BadKekLength> {
        Aes::new(kek)
    }

    fn expand(kek: &[u8], _room: (), schedule: &mut [u8]) -> Result<(), ScheduleFault> {
        write_schedule::<ByTable>(kek, &mut [0; MAX_WORDS], schedule)
    }

    fn from_schedule(schedule: &[u8], _room: ()) -> Option<Aes> {
        Aes::from_schedule(schedule)
    }
}
