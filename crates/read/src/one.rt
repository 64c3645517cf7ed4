// Readings at spreading factor 1: each chip times its multiplier. One component of a multiplier is 0 and the other 1 or -1, so that a product is a choice
// between the chip's components and a change of sign, which are vector code where products of 32-bit numbers are not.
ghost use Rattle.std.specs.Prelude.{◌≡◌, List, ℕ, ◌+◌, ◌≤◌, ℤ, pos, length};
ghost use Rattle.complex.specs.Arithmetic.{◌+j◌, ◌⊗◌};
ghost use Rattle.complex.specs.Buffers.{block_of, listed, value, written};
ghost use Rattle.complex.specs.Fits.{Both};
ghost use Rattle.read.specs.Multipliers.{PowerOfJ, PowersOfJ};
ghost use Rattle.read.specs.Reading.{reading as reading_of};

use crate::field::FieldChips;
use crate::reader::Reader;
use crate::signed::both_signed;
use complex::{Block, Complex};

// The components change places where the multiplier's real part is 0.
fn arranged(x: Complex, w: Complex) -> Complex
    ensures zero { w.re ≡ pos 0 → result ≡ (x.im +j x.re) }
    ensures other { (w.re ≡ pos 0 → ⊥) → result ≡ x }
{
    if w.re == 0 {
        Complex { re: x.im, im: x.re }
    } else {
        x
    }
}

// A chip times its multiplier: the signs of the two parts are the difference and the sum of the multiplier's components, of which one is 0.
fn product(x: Complex, w: Complex) -> Complex
    requires { PowerOfJ w × Both 100000 x }
    ensures { result ≡ x ⊗ w }
{
    both_signed(w.re - w.im, w.re + w.im, arranged(x, w))
}

// The products of sixteen chips from `at` on, all read before any is written, for the compiler cannot tell the answer buffers from the chips'.
fn sixteen_products(w: &Block, field: &FieldChips, at: usize) -> Block
    requires { (at + 16 ≤ length field.now.re.now) × PowersOfJ w.now.re w.now.im }
    ensures { result ≡ block_of (λ i. value field.now.re.now field.now.im.now (at + i) ⊗ value w.now.re w.now.im i) }
{
    Block::from_fn(|i| product(field.chip(at + i), w.at(i)))
}

// Sixteen entries, to a buffer from `at` on. By an index: `copy_from_slice` makes read at Q 1 slower by 4 %.
fn put(x: &[i32; 16], at: usize, out: &mut [i32])
    requires { at + 16 ≤ length out.old }
    ensures { (f : ℕ → ℤ) (d : List ℤ) → length d ≡ length out.old → x.now ≡ listed 16 (λ i. f (at + i)) → out.old ≡ written (listed at f) d → out.new ≡ written (listed (at + 16) f) d }
{
    for i in 0..16 {
        out[at + i] = x[i];
    }
}

// Every reading of code (1, k), sixteen at a time. By an index: a block of the field and a part of each answer buffer go side by side.
pub fn all(reader: Reader, field: &FieldChips, outre: &mut [i32], outim: &mut [i32])
    requires { (reader.code.q ≡ 1) × (length field.now.re.now ≤ length outre.old) × (length field.now.re.now ≤ length outim.old) }
    ensures real { outre.new ≡ written (listed (length field.now.re.now) (λ n. (reading_of reader.cell.0 1 reader.code.k (value field.now.re.now field.now.im.now) n).re)) outre.old }
    ensures imaginary { outim.new ≡ written (listed (length field.now.re.now) (λ n. (reading_of reader.cell.0 1 reader.code.k (value field.now.re.now field.now.im.now) n).im)) outim.old }
{
    let w = reader.multipliers();
    for m in 0..field.len() / 16 {
        let b = sixteen_products(&w, field, 16 * m);
        put(&b.re, 16 * m, outre);
        put(&b.im, 16 * m, outim);
    }
}
