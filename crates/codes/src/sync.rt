// The primary and the secondary sync codes, whole and by their parts of 16 chips.
ghost use Rattle.std.specs.Prelude.{◌≡◌, true};
ghost use Rattle.codes.specs.PackedSigns.{packed, secondary_row};
ghost use Rattle.complex.specs.Buffers.{◌at◌};
ghost use Rattle.codes.specs.SyncCodes.{a, a_signs, b, is_sync_code, Cp, C};

use crate::signs::sign_at;
use complex::Complex;

// The sequence a as a row of signs.
pub fn a_row() -> u32
    ensures { result ≡ packed a }
{
    0b1111110010101001
}

// The signs of the primary code's sixteen parts as a row.
pub fn a_repeat_row() -> u32
    ensures { result ≡ packed a_signs }
{
    0b1110010011101011
}

// The sequence b as a row of signs.
fn b_row() -> u32
    ensures { result ≡ packed b }
{
    0b1111110001010110
}

// The signs of secondary code i's sixteen parts as a row: those of z times those of the Hadamard matrix. Row 0 for any other number (docs/DECISIONS.md).
pub fn secondary_row(i: u32) -> u32
    ensures { result ≡ secondary_row i }
{
    match i {
        0 => 0b1110110010100000,
        1 => 0b1011100111110101,
        2 => 0b1101111110010011,
        3 => 0b1000101011000110,
        4 => 0b1110001110101111,
        5 => 0b1011011011111010,
        6 => 0b1101000010011100,
        7 => 0b1000010111001001,
        8 => 0b1110110001011111,
        9 => 0b1011100100001010,
        10 => 0b1101111101101100,
        11 => 0b1000101000111001,
        12 => 0b1110001101010000,
        13 => 0b1011011000000101,
        14 => 0b1101000001100011,
        15 => 0b1000010100110110,
        _ => 0,
    }
}

// A function for each row, as docs/DECISIONS.md names them: `a_sign`, `a_repeat` and `b_sign` differ in the row alone.

// Element i of the sequence a; 0 past its end.
#[tactic(auto, using(crate::proofs::Rows::a_read_back))]
pub fn a_sign(i: u32) -> i32
    ensures { result ≡ a at i }
{
    sign_at(a_row(), i)
}

// The sign of part m of the primary code, which is this sign times a; 0 past the code's end.
#[tactic(auto, using(crate::proofs::Rows::a_signs_read_back))]
pub fn a_repeat(m: u32) -> i32
    ensures { result ≡ a_signs at m }
{
    sign_at(a_repeat_row(), m)
}

// Element i of the sequence b; 0 past its end.
#[tactic(auto, using(crate::proofs::Rows::b_read_back))]
pub fn b_sign(i: u32) -> i32
    ensures { result ≡ b at i }
{
    sign_at(b_row(), i)
}

// Whether a secondary code has number i. By the four that no code has it is one test of a bit; by the twelve it is a chain of jumps.
#[tactic(auto, unfolding(crate::specs::SyncCodes::is_sync_code))]
pub fn is_sync_code(i: u32) -> bool
    ensures { result ≡ is_sync_code i }
{
    i < 16 && !matches!(i, 2 | 7 | 9 | 11)
}

// Chip n of the primary code; 0 past its end.
#[tactic(auto, unfolding(crate::specs::SyncCodes::Cp, crate::specs::SyncCodes::repeated), using(crate::proofs::Rows::sign_products))]
pub fn primary(n: u32) -> Complex
    ensures { result ≡ Cp n }
{
    complex::times_one_plus_j(a_repeat(n / 16) * a_sign(n % 16))
}

// Chip n of secondary code i, which is listed; 0 past the code's end. For the call, which has looked: a second test would cost it a quarter of its time.
#[tactic(auto, using(crate::proofs::Parts::secondaries))]
pub(crate) fn listed_chip(i: u32, n: u32) -> Complex
    requires { is_sync_code i ≡ true }
    ensures { result ≡ C i n }
{
    complex::times_one_plus_j(sign_at(secondary_row(i), n / 16) * b_sign(n % 16))
}

// Chip n of secondary code i; 0 for a number that is not listed and past the code's end.
#[tactic(auto, using(crate::proofs::Parts::secondaries))]
pub fn secondary(i: u32, n: u32) -> Complex
    ensures { result ≡ C i n }
{
    if is_sync_code(i) {
        listed_chip(i, n)
    } else {
        Complex::ZERO
    }
}
