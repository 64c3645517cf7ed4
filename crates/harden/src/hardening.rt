// Hard bits of readings.
ghost use Rattle.std.specs.Prelude.{◌≡◌, ◌*◌, ◌/◌, ◌%◌, ◌≤◌, length};
ghost use Rattle.complex.specs.Buffers.{listed, value, written};
ghost use Rattle.harden.specs.Hardening.{hard_bit, hard_pair};

use complex::Complex;

// The first bit of the pair is 1 where re + im is below 0, that is, where re is at most -1 - im, which fits for every im.
fn first_bit(y: Complex) -> u8
    ensures { result ≡ hard_pair y / 2 }
{
    u8::from(y.re <= -1 - y.im)
}

// The second bit is 1 where re is above im.
fn second_bit(y: Complex) -> u8
    ensures { result ≡ hard_pair y % 2 }
{
    u8::from(y.im < y.re)
}

// Two bits for each reading: one comparison each instead of the four scores, so that eight readings are compared at a time. An index:
// two entries are written for each that is read.
pub fn all(re: &[i32], im: &[i32], bits: &mut [u8])
    requires { (length re.now ≡ length im.now) × (2 * length re.now ≤ length bits.old) }
    ensures { bits.new ≡ written (listed (2 * length re.now) (hard_bit (value re.now im.now))) bits.old }
{
    for n in 0..re.len() {
        let y = complex::value_at(re, im, n);
        bits[2 * n] = first_bit(y);
        bits[2 * n + 1] = second_bit(y);
    }
}
