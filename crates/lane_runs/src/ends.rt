//! The ends of unwrappings.

ghost use Rattle.std.specs.Prelude.{◌≡◌, ℕ, ◌*◌, ◌/◌, ◌≤◌, ◌<◌, ◌++◌, length, drop, replicate, slice_index};
ghost use Rattle.key_wrap_core.specs.declared.forms.Form.TheVariants as forms;
ghost use Rattle.key_wrap_core.specs.Lengths.{IsPlainTextLength};
ghost use Rattle.key_wrap_lanes.specs.Lanes.{AreLanes, block_at, part_at};
ghost use Rattle.lane_runs.specs.Texts.{EndsLane, EndsText, found_len, text_status};

use block_lanes::BLOCK;
use key_wrap_core::{Form, InPlaceFault, InitialValue, WORD};
use key_wrap_steps::{end_unwrap, end_unwrap_padded};

// The status of a text whose key was found.
pub(crate) const DONE: u8 = 0;

// The status of a text that is no wrapped key.
pub(crate) const INTEGRITY: u8 = 5;

// Ends each unwrapping of a batch.
pub(crate) fn end_batch(
    form: Form,
    texts: &mut [u8],
    text_len: usize,
    blocks: &[u8],
    key_lens: &mut [usize],
    statuses: &mut [u8],
)
    requires lanes { AreLanes text_len texts.old blocks.now }
    requires statuses { length statuses.old ≡ length blocks.now / 16 }
    requires lens { length key_lens.old ≡ length blocks.now / 16 }
    ensures { (i : ℕ) → i < length blocks.now / 16 → EndsLane form
        (part_at text_len i texts.old) (block_at i blocks.now) (part_at text_len i texts.new)
        (slice_index key_lens.new i) (slice_index statuses.new i) }
{
    for lane in 0..statuses.len() {
        let start = text_len * lane;
        let place = BLOCK * lane;
        let (status, key_len) = end_lane(
            form,
            &mut texts[start..start + text_len],
            &blocks[place..place + BLOCK],
        );
        statuses[lane] = status;
        key_lens[lane] = key_len;
    }
}

// Ends one unwrapping. Returns its status and the length of its key.
fn end_lane(form: Form, text: &mut [u8], block: &[u8]) -> (u8, usize)
    requires legal { IsPlainTextLength (length text.old) }
    requires sixteen { length block.now ≡ 16 }
    ensures { EndsLane form text.old block.now text.new result.1 result.0 }
{
    let mut last = [0; BLOCK];
    last.copy_from_slice(block);
    let ended = match form {
        Form::Plain => end_plain(text, &mut last),
        Form::Padded => end_padded(text, &mut last),
    };
    told(ended)
}

// The status of a result, and the length of its key.
fn told(ended: Result<usize, InPlaceFault>) -> (u8, usize)
    ensures status { result.0 ≡ text_status ended }
    ensures key_len { result.1 ≡ found_len ended }
{
    match ended {
        Ok(len) => (DONE, len),
        Err(_) => (INTEGRITY, 0),
    }
}

// Ends a plain unwrapping.
fn end_plain(text: &mut [u8], block: &mut [u8; 16]) -> Result<usize, InPlaceFault>
    requires { IsPlainTextLength (length text.old) }
    ensures { EndsText forms.Plain text.old block.old text.new result }
{
    clear_first(text);
    match end_unwrap(&InitialValue::default(), &mut text[WORD..], 0, block) {
        Ok(()) => Ok(text.len() - WORD),
        Err(fault) => Err(fault),
    }
}

// Ends a padded unwrapping.
fn end_padded(text: &mut [u8], block: &mut [u8; 16]) -> Result<usize, InPlaceFault>
    requires { IsPlainTextLength (length text.old) }
    ensures { EndsText forms.Padded text.old block.old text.new result }
{
    clear_first(text);
    end_unwrap_padded(&mut text[WORD..], 0, block)
}

// The first word of a text becomes zeros.
fn clear_first(text: &mut [u8])
    requires { 8 ≤ length text.old }
    ensures { text.new ≡ replicate 8 0 ++ drop 8 text.old }
{
    text[..WORD].fill(0);
}
