// What read takes its readings from.
ghost use Rattle.std.specs.Prelude.{◌≡◌, ◌%◌, ◌<◌, ◌≤◌, ℤ, List, length};
ghost use Rattle.complex.specs.Buffers.{value};
ghost use Rattle.complex.specs.Fits.{Both, Bound};
ghost use Rattle.codes.specs.Answers.{answer_by};
ghost use Rattle.codes.specs.Refusals.{◌otherwise◌};
ghost use Rattle.read.specs.Reading.{bad_field_length};
ghost use Rattle.read.specs.Refused.{field_refusals};

use analyser_parts::components;
use codes::refusal::Refusal;
use complex::Complex;

// A field: at most 1104 chips, a multiple of 16, with components from -100000 to 100000.
#[derive(Clone, Copy)]
pub struct FieldChips<'a> {
    pub re: &'a [i32],
    pub im: &'a [i32],
    ghost lengths: { length re.now ≡ length im.now },
    ghost most: { length re.now ≤ 1104 },
    ghost sixteens: { length re.now % 16 ≡ 0 },
    ghost re_bound: { Bound 100000 re.now },
    ghost im_bound: { Bound 100000 im.now },
}

// Whether no field has n chips: a field has 16 to 1104, a multiple of 16.
fn is_no_field(n: usize) -> bool
    ensures { result ≡ bad_field_length n }
{
    n == 0 || 1104 < n || n % 16 != 0
}

impl<'a> FieldChips<'a> {
    // Refuses 12 re and im differ in length; 16 length 0, above 1104 or no multiple of 16; 17 a component outside -100000 to 100000.
    pub fn new(re: &'a [i32], im: &'a [i32]) -> Result<FieldChips<'a>, Refusal>
        ensures { answer_by {B = List ℤ × List ℤ} (λ f. (f.re.now, f.im.now)) result ≡ field_refusals re.now im.now otherwise (re.now, im.now) }
    {
        if re.len() != im.len() {
            return Err(Refusal::LengthsDiffer);
        }
        if is_no_field(re.len()) {
            return Err(Refusal::LengthChipOrSyncCode);
        }
        if components::either_outside(re, im) {
            return Err(Refusal::Component);
        }
        Ok(FieldChips { re, im })
    }

    pub fn len(&self) -> usize
        ensures { result ≡ length self.now.re.now }
    {
        self.re.len()
    }

    // Chip n, from 0.
    pub fn chip(&self, n: usize) -> Complex
        requires { n < length self.now.re.now }
        ensures is { result ≡ value self.now.re.now self.now.im.now n }
        ensures size { Both 100000 result }
    {
        complex::value_at(self.re, self.im, n)
    }
}
