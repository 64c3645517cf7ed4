// The bytes of a load, one a bit.
ghost use Rattle.std.specs.Prelude.{◌≡◌};
ghost use Rattle.tables.specs.Bits.{has_byte_above_1};

// Whether a byte is above 1. All are looked at, which is faster than stopping at the first.
pub fn has_byte_above_1(bits: &[u8]) -> bool
    ensures { result ≡ has_byte_above_1 bits.now }
{
    let mut found = false;
    for &bit in bits {
        found |= 1 < bit;
    }
    found
}
