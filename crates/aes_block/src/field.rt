//! The field of 256 elements (FIPS 197, section 4).

ghost use Rattle.std.specs.Prelude.{◌≡◌, ◌≢◌, ◌↔◌, ℕ};
ghost use Rattle.fips197.specs.Field.{DistributesOverXor, IsFieldProduct, inverse, product};

/// The product of two bytes in the field (FIPS 197, 4.2).
pub fn mul(a: u8, b: u8) -> u8
    ensures only_product { (p : ℕ) → IsFieldProduct a b p ↔ (p ≡ result) }
    ensures value { result ≡ product a b }

    // A law for callers, about the definition only.
    ensures distributes { DistributesOverXor product }
{
    let mut sum = 0;
    let mut shifted = a;
    for i in 0..8u32 {
        if (b >> i) & 1 == 1 {
            sum ^= shifted;
        }
        shifted = x_times(shifted);
    }
    sum
}

// The product with the polynomial x, which FIPS 197, 4.2, calls xTimes.
fn x_times(a: u8) -> u8
    ensures { result ≡ product a 2 }
{
    if a & 0x80 == 0 {
        a << 1
    } else {
        (a << 1) ^ 0x1B
    }
}

/// The inverse of a byte in the field, and 00 for 00 (FIPS 197, 4.4).
pub fn inverse(a: u8) -> u8
    ensures unit { a ≢ 0 → product a result ≡ 1 }
    ensures zero { a ≡ 0 → result ≡ 0 }
    ensures value { result ≡ inverse a }
{
    let a2 = mul(a, a);
    let a4 = mul(a2, a2);
    let a8 = mul(a4, a4);
    let a16 = mul(a8, a8);
    let a32 = mul(a16, a16);
    let a64 = mul(a32, a32);
    let a128 = mul(a64, a64);
    mul(mul(mul(mul(mul(mul(a2, a4), a8), a16), a32), a64), a128)
}
