// Products with signs, 1 or -1: a change of sign, four at a time in vector code, where products of 32-bit numbers go one by one.
ghost use Rattle.std.specs.Prelude.{◌≡◌, true, ◌*ℤ◌};
ghost use Rattle.complex.specs.Arithmetic.{◌+j◌};
ghost use Rattle.complex.specs.Fits.{Within, Both};
ghost use Rattle.read.specs.Multipliers.{is_sign};

use complex::Complex;

// x times a sign. The function of this name in modulation also takes 0: with its third case read at Q 1 is slower by a quarter.
fn signed(s: i32, x: i32) -> i32
    requires { (is_sign s ≡ true) × Within 100000 x }
    ensures { result ≡ s *ℤ x }
{
    if s < 0 { -x } else { x }
}

// The components, each with its sign.
pub fn both_signed(s: i32, t: i32, y: Complex) -> Complex
    requires { (is_sign s ≡ true) × (is_sign t ≡ true) × Both 100000 y }
    ensures { result ≡ (s *ℤ y.re) +j (t *ℤ y.im) }
{
    Complex {
        re: signed(s, y.re),
        im: signed(t, y.im),
    }
}
