//! A hex digit. No branch and no look-up depends on which digit it is.

ghost use Rattle.std.specs.Prelude.{◌≡◌, ◌+◌, ◌*◌, true};
ghost use Rattle.std.specs.Char.{digit_value};
ghost use Rattle.key_files.specs.HexText.{is_hex_digit};

// Returns whether `c` is a digit. The two cases of a letter differ in one bit.
pub(crate) fn is_hex_digit(c: u8) -> bool
    ensures { result ≡ is_hex_digit c }
{
    let lower = c | 0x20;
    ((b'0' <= c) & (c <= b'9')) | ((b'a' <= lower) & (lower <= b'f'))
}

// Returns the byte that two digits spell. For other bytes the result means nothing.
pub(crate) fn byte_of(high: u8, low: u8) -> u8
    ensures { is_hex_digit high ≡ true → is_hex_digit low ≡ true
        → result ≡ 16 * digit_value high + digit_value low }
{
    (digit_value(high) << 4) | digit_value(low)
}

// Returns the value of a digit. Only letters have bit 6, and their low four bits begin at 1.
fn digit_value(c: u8) -> u8
    ensures { is_hex_digit c ≡ true → result ≡ digit_value c }
{
    (c & 15) + 9 * (c >> 6)
}
