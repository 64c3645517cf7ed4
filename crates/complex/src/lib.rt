// Whole-number complex values, 32 bits a component, and the operations that the crates above need.
#![tactic(auto)]

ghost use Rattle.std.specs.Prelude.{◌≡◌, ℕ, ◌<◌, pos, neg_ℤ, length};
ghost use Rattle.std.specs.Int.{w32};
ghost use Rattle.std.proofs.Common.{SFits};
ghost use Rattle.complex.specs.Arithmetic.{◌+j◌, ◌⊕◌, ◌⊗◌, conj, real, j^};
ghost use Rattle.complex.specs.Buffers.{block_of, value};
ghost use Rattle.complex.specs.Fits.{Fits32, ProductFits32};

#[repr(C)]
#[derive(Clone, Copy)]
pub struct Complex {
    pub re: i32,
    pub im: i32,
}

impl Complex {
    pub const ZERO: Complex = Complex { re: 0, im: 0 };

    pub const ONE: Complex = Complex { re: 1, im: 0 };

    pub const J: Complex = Complex { re: 0, im: 1 };

    // The sum, where its components fit.
    pub fn plus(self, other: Complex) -> Complex
        requires { Fits32 (self ⊕ other) }
        ensures { result ≡ self ⊕ other }
    {
        Complex {
            re: self.re + other.re,
            im: self.im + other.im,
        }
    }

    // The product, where it and the products that it is made of fit.
    pub fn times(self, other: Complex) -> Complex
        requires { ProductFits32 self other }
        ensures { result ≡ self ⊗ other }
    {
        Complex {
            re: self.re * other.re - self.im * other.im,
            im: self.re * other.im + self.im * other.re,
        }
    }

    // The conjugate, where the negative fits.
    pub fn conjugate(self) -> Complex
        requires { SFits w32 (neg_ℤ self.im) }
        ensures { result ≡ conj self }
    {
        Complex {
            re: self.re,
            im: -self.im,
        }
    }

    // Times j to the power n: a swap and a change of sign, where the negatives fit.
    pub fn rotated(self, n: u32) -> Complex
        requires { Fits32 (neg_ℤ self.re +j neg_ℤ self.im) }
        ensures { result ≡ j^ n ⊗ self }
    {
        match n % 4 {
            0 => self,
            1 => Complex {
                re: -self.im,
                im: self.re,
            },
            2 => Complex {
                re: -self.re,
                im: -self.im,
            },
            _ => Complex {
                re: self.im,
                im: -self.re,
            },
        }
    }
}

// A whole number.
impl From<i32> for Complex {
    ghost from_gives = { λ x z. z ≡ real x };

    #[tactic(auto, unfolding(crate::specs::Arithmetic::real))]
    fn from(x: i32) -> Complex {
        Complex { re: x, im: 0 }
    }
}

// x times 1 + j, the form of every sync chip.
pub fn times_one_plus_j(x: i32) -> Complex
    ensures { result ≡ real x ⊗ (pos 1 +j pos 1) }
{
    Complex { re: x, im: x }
}

// Value n of a re and an im buffer.
pub fn value_at(re: &[i32], im: &[i32], n: usize) -> Complex
    requires { (n < length re.now) × (n < length im.now) }
    ensures { result ≡ value re.now im.now n }
{
    Complex {
        re: re[n],
        im: im[n],
    }
}

// Sixteen complex values, component by component.
#[derive(Clone, Copy)]
pub struct Block {
    pub re: [i32; 16],
    pub im: [i32; 16],
}

impl Block {
    // What f makes of 0 to 15: one loop fills both arrays, so that f is called once for each value.
    pub fn from_fn<F: Fn(usize) -> Complex>(f: F) -> Block
        requires { (i : ℕ) → i < 16 → F.pre f i }
        ensures { (g : ℕ → Complex) → ((i : ℕ) (z : Complex) → i < 16 → F.post f i z → z ≡ g i) → result ≡ block_of g }
    {
        let mut re = [0i32; 16];
        let mut im = [0i32; 16];
        for i in 0..16 {
            let z = f(i);
            re[i] = z.re;
            im[i] = z.im;
        }
        Block { re, im }
    }

    // Value i.
    pub fn at(&self, i: usize) -> Complex
        requires { i < 16 }
        ensures { result ≡ value self.now.re self.now.im i }
    {
        value_at(&self.re, &self.im, i)
    }
}
