//! Slots of one length behind each other in one buffer.

ghost use Rattle.std.specs.Prelude.{◌≡◌, ◌*◌, ◌/◌, pos, IfSome, IfNone};
ghost use Rattle.keywrap_calls.specs.Many.{AreSlots};
ghost use Rattle.keywrap_calls.specs.Status.{IsUnwrapStatus};

// The length of each of `count` slots in `len` bytes.
pub(crate) fn slot_len(len: usize, count: usize) -> Option<usize>
    ensures some { IfSome result (λ n. AreSlots len count × (n ≡ len / count) × (len ≡ n * count)) }
    ensures none { IfNone result (¬ AreSlots len count) }
{
    if count > 0 && len % count == 0 {
        Some(len / count)
    } else {
        None
    }
}

// The byte of a status.
pub(crate) fn status_byte(status: i32) -> u8
    requires { IsUnwrapStatus status }
    ensures { status ≡ pos result }
{
    status as u8
}
