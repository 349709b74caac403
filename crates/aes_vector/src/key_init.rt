//! AES made from a key-encryption key, with its round keys in memory that the caller lends.

use crate::expansion::ByShuffles;
use crate::key_schedule::KeySchedule;
use crate::lent::LentAes;
use fips197::{BadKekLength, KeyInit, ScheduleFault, write_schedule};

impl<'a> KeyInit for LentAes<'a> {
    type Schedule = &'a mut KeySchedule;

    #[inline(always)]
    fn new_in(kek: &[u8], schedule: &'a mut KeySchedule) -> Result<LentAes<'a>, BadKekLength> {
        LentAes::new(kek, schedule)
    }

    fn expand(
        kek: &[u8],
        room: &'a mut KeySchedule,
        schedule: &mut [u8],
    ) -> Result<(), ScheduleFault> {
        write_schedule::<ByShuffles>(kek, &mut room.words, schedule)
    }

    #[inline(always)]
    fn from_schedule(schedule: &[u8], room: &'a mut KeySchedule) -> Option<LentAes<'a>> {
        LentAes::from_schedule(schedule, room)
    }
}
