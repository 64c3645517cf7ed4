// Readings of a code from a field.
ghost use Rattle.std.specs.Prelude.{◌≡◌, ◌+◌, ◌/◌, ◌≤◌, length};
ghost use Rattle.complex.specs.Fits.{Bound};
ghost use Rattle.complex.specs.Buffers.{listed, value, written};
ghost use Rattle.read.specs.Reading.{reading as reading_of};
ghost use Rattle.read.specs.Multipliers.{multiplied_sum};

use crate::field::FieldChips;
use crate::reader::Reader;
use crate::{one, sixteen};
use complex::{Block, Complex};

// The sum of q chips from `from` on, each with its multiplier. By an index: the multipliers repeat every sixteen chips of the field.
fn reading(field: &FieldChips, w: &Block, from: usize, q: usize) -> Complex
    requires q_in_bounds { (from + q ≤ length field.now.re.now) × (q ≤ 16) }
    requires bound { Bound 1 w.now.re × Bound 1 w.now.im }
    ensures { result ≡ multiplied_sum (value field.now.re.now field.now.im.now) (value w.now.re w.now.im) from q }
{
    let mut sum = Complex::ZERO;
    for i in 0..q {
        let at = from + i;
        sum = sum.plus(field.chip(at).times(w.at(at % 16)));
    }
    sum
}

// Every reading of any code, to the answer buffers, by sums of products. By an index: reading n begins at chip n q, and goes to two buffers.
fn by_products(reader: Reader, field: &FieldChips, outre: &mut [i32], outim: &mut [i32])
    requires { (length field.now.re.now / reader.code.q ≤ length outre.old) × (length field.now.re.now / reader.code.q ≤ length outim.old) }
    ensures real { outre.new ≡ written (listed (length field.now.re.now / reader.code.q) (λ n. (reading_of reader.cell.0 reader.code.q reader.code.k (value field.now.re.now field.now.im.now) n).re)) outre.old }
    ensures imaginary { outim.new ≡ written (listed (length field.now.re.now / reader.code.q) (λ n. (reading_of reader.cell.0 reader.code.q reader.code.k (value field.now.re.now field.now.im.now) n).im)) outim.old }
{
    let w = reader.multipliers();
    let step = reader.code.q as usize;
    for n in 0..field.len() / step {
        let y = reading(field, &w, n * step, step);
        outre[n] = y.re;
        outim[n] = y.im;
    }
}

// Every reading, to the answer buffers.
pub fn all(reader: Reader, field: &FieldChips, outre: &mut [i32], outim: &mut [i32])
    requires { (length field.now.re.now / reader.code.q ≤ length outre.old) × (length field.now.re.now / reader.code.q ≤ length outim.old) }
    ensures real { outre.new ≡ written (listed (length field.now.re.now / reader.code.q) (λ n. (reading_of reader.cell.0 reader.code.q reader.code.k (value field.now.re.now field.now.im.now) n).re)) outre.old }
    ensures imaginary { outim.new ≡ written (listed (length field.now.re.now / reader.code.q) (λ n. (reading_of reader.cell.0 reader.code.q reader.code.k (value field.now.re.now field.now.im.now) n).im)) outim.old }
{
    match reader.code.q {
        1 => one::all(reader, field, outre, outim),
        16 => sixteen::all(reader, field, outre, outim),
        _ => by_products(reader, field, outre, outim),
    }
}
