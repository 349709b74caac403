//! Which library this is.

ghost use Rattle.std.specs.Prelude.{◌≡◌};
ghost use Rattle.keywrap_calls.specs.Version.{version};

/// The version 1.3.0, as `KEYWRAP_VERSION` of `keywrap.h`: 16, 8 and 8 bits.
pub fn version() -> u32
    ensures { result ≡ version }
{
    0x0001_0300
}
