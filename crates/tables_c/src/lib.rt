// The test of a load's bytes as a library of its own, for the benchmark, which times it by itself: no host's call.
#![tactic(auto)]

ghost use Rattle.std.specs.Prelude.{◌≡◌};
ghost use Rattle.tables.specs.Bits.{has_byte_above_1};

#[unsafe(no_mangle)]
pub extern "C" fn tdd_has_byte_above_1(bits: &[u8]) -> bool
    ensures { result ≡ has_byte_above_1 bits.now }
{
    tables::bits::has_byte_above_1(bits)
}
