// Products of which the correlations with sync codes are made.
ghost use Rattle.std.specs.Prelude.{◌≡◌, pos, ◌+ℤ◌, ◌*ℤ◌};
ghost use Rattle.std.specs.Int.{w64};
ghost use Rattle.std.proofs.Common.{SFits};
ghost use Rattle.complex.specs.Arithmetic.{◌+j◌, ◌⊗◌, conj};
ghost use Rattle.complex.specs.Fits.{Both};

use complex::Complex;

// a b + c d.
pub fn sum_of_products(a: i64, b: i64, c: i64, d: i64) -> i64
    requires { SFits w64 (a *ℤ b) × SFits w64 (c *ℤ d) × SFits w64 (a *ℤ b +ℤ c *ℤ d) }
    ensures { result ≡ a *ℤ b +ℤ c *ℤ d }
{
    a * b + c * d
}

// z times 1 - j.
pub fn times_one_minus_j(z: Complex) -> Complex
    requires { Both 25600000 z }
    ensures { result ≡ z ⊗ conj (pos 1 +j pos 1) }
{
    Complex {
        re: z.re + z.im,
        im: z.im - z.re,
    }
}
