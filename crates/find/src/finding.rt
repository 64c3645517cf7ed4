// Finding the primary code in a recording.
ghost use Rattle.std.specs.Prelude.{◌≡◌, Bool, true, ℕ, ℤ, ◌+◌, ◌/◌, ◌<◌, ◌≤◌, ◌+ℤ◌, ◌-ℤ◌, List, length, take};
ghost use Rattle.std.specs.Int.Signed.{le_z};
ghost use Rattle.complex.specs.Arithmetic.{squared_size};
ghost use Rattle.complex.specs.Buffers.{listed, value, written, ◌at◌};
ghost use Rattle.complex.specs.Fits.{Within, Both, Bound};
ghost use Rattle.codes.specs.Answers.{answer_by};
ghost use Rattle.codes.specs.Refusals.{◌otherwise◌};
ghost use Rattle.analyser_parts.specs.Peaks.{Peaks};
ghost use Rattle.analyser_parts.specs.PartSums.{primary_sum};
ghost use Rattle.find.specs.Finding.{find_refusals, peak as peak_of, scratch_length, start_count};
ghost use Rattle.find.specs.PeakSearch.{Bounded, Covers, four_of, lower_of, lowered_of};

use crate::Peak;
use analyser_parts::components;
use analyser_parts::correlation::{sum_of_products, times_one_minus_j};
use analyser_parts::largest::Largest;
use codes::refusal::Refusal;
use complex::Complex;

// y(i) = x(i) + x(i + a) + x(i + b) - x(i + c) for i below `count`.
fn sums(x: &[i32], a: usize, b: usize, c: usize, y: &mut [i32], count: usize)
    requires { (count + c ≤ length x.now) × (a ≤ c) × (b ≤ c) × (length x.now ≤ 5120) × (count ≤ length y.old) × Bound 400000 x.now }
    ensures { y.new ≡ written (listed count (four_of (◌at◌ x.now) a b c)) y.old }
{
    // An index: four entries at distances are read at each turn.
    for i in 0..count {
        y[i] = x[i] + x[i + a] + (x[i + b] - x[i + c]);
    }
}

// For i below `count`, y(i) becomes y(i) + y(i + 32) + y(i + 16) - y(i + 48), and t(i) the same with the last two signs changed.
fn pairs(y: &mut [i32], t: &mut [i32], count: usize)
    requires { (count + 48 ≤ length y.old) × (count ≤ 5120) × (count ≤ length t.old) × Bound 1600000 (take (count + 48) y.old) }
    ensures { (y.new ≡ written (listed count (four_of (◌at◌ y.old) 32 16 48)) y.old) × (t.new ≡ written (listed count (four_of (◌at◌ y.old) 32 48 16)) t.old) }
{
    // An index: four entries at distances are read at each turn, and the first is written.
    for i in 0..count {
        let p = y[i];
        let q = y[i + 32];
        let r = y[i + 16];
        let s = y[i + 48];
        y[i] = p + q + (r - s);
        t[i] = p + q + (s - r);
    }
}

// For i below `count`, y(i) becomes y(i) + y(i + 128) + t(i + 192) - t(i + 64).
fn whole(y: &mut [i32], t: &[i32], count: usize)
    requires { (count + 192 ≤ length y.old) × (count ≤ 5120) × (count + 192 ≤ length t.now) × Bound 6400000 (take (count + 192) y.old) × Bound 6400000 (take (count + 192) t.now) }
    ensures { y.new ≡ written (listed count (λ p. y.old at p +ℤ y.old at (p + 128) +ℤ (t.now at (p + 192) -ℤ t.now at (p + 64)))) y.old }
{
    // An index: entries at distances are read at each turn, and the first is written.
    for i in 0..count {
        y[i] = y[i] + y[i + 128] + (t[i + 192] - t[i + 64]);
    }
}

// The correlations of a component with the signs of the primary code from every start on. The code is a Golay sequence, so four steps
// with 15 additions a chip, 13 where the compiler shares the two that `pairs` has twice, make what its definition makes with 255; t is scratch.
fn correlate(x: &[i32], y: &mut [i32], t: &mut [i32])
    requires { (256 ≤ length x.now) × (length x.now ≤ 5120) × (scratch_length (length x.now) ≤ length y.old) × (length x.now ≤ length t.old) × Bound 100000 x.now }
    ensures { (take (start_count (length x.now)) y.new ≡ listed (start_count (length x.now)) (primary_sum x.now)) × (length y.new ≡ length y.old) × (length t.new ≡ length t.old) }
{
    let n = x.len();
    sums(x, 1, 8, 9, &mut *t, n - 9);
    sums(&t[..n - 9], 2, 4, 6, &mut *y, n - 15);
    pairs(&mut *y, &mut *t, n - 63);
    whole(&mut *y, &*t, n - 255);
}

// The squared size of z.
#[tactic(auto, unfolding(complex::specs::Arithmetic::squared_size))]
fn squared(z: Complex) -> i64
    requires { Both 51200000 z }
    ensures { result ≡ squared_size z }
{
    let a = i64::from(z.re);
    let b = i64::from(z.im);
    sum_of_products(a, a, b, b)
}

// -|x|.
fn lowered(x: i32) -> i32
    requires { Within 25600000 x }
    ensures { result ≡ lowered_of x }
{
    if 0 < x { -x } else { x }
}

// The smaller of low and -(|re| + |im|).
fn lower(low: i32, re: i32, im: i32) -> i32
    requires { Within 25600000 re × Within 25600000 im }
    ensures { result ≡ lower_of low re im }
{
    let y = lowered(re) + lowered(im);
    if y < low { y } else { low }
}

// Where the largest bound stands. For find's answer any block would do: this one leaves few others to look at. The first
// is compared with itself too, so that the loop is one over all.
fn highest(bounds: &[i64]) -> usize
    requires { 0 < length bounds.now }
    ensures { (result < length bounds.now) × ((k : ℕ) → k < length bounds.now → le_z (bounds.now at k) (bounds.now at result) ≡ true) }
{
    let mut top = Largest {
        at: 0,
        value: bounds[0],
    };
    for (at, &value) in bounds.iter().enumerate() {
        top = top.or_later(Largest { at, value });
    }
    top.at
}

// The sums of a recording's chips with the signs of the primary code, one for each start.
#[derive(Clone, Copy)]
struct Correlations<'a> {
    re: &'a [i32],
    im: &'a [i32],
    ghost as_many: { length re.now ≡ length im.now },
    ghost short: { length re.now ≤ 5120 },
    ghost re_small: { Bound 25600000 re.now },
    ghost im_small: { Bound 25600000 im.now },
}

impl Correlations<'_> {
    ghost use Rattle.find.specs.Searching.{at_least, Searched, size_at, starts};

    // The squared size of the correlation with the primary code from start k on.
    fn size(&self, k: usize) -> i64
        requires { k < starts self.now }
        ensures { result ≡ size_at self.now k }
    {
        squared(times_one_minus_j(Complex {
            re: self.re[k],
            im: self.im[k],
        }))
    }

    // How large |re| + |im| gets in a block of 32 starts, as a number that is not positive: vector code compares signed numbers.
    fn lowest(&self, from: usize) -> i32
        requires { from + 32 ≤ starts self.now }
        ensures { Covers self.now.re.now self.now.im.now from 32 result }
    {
        let mut low: i32 = 0;
        let re = &self.re[from..from + 32];
        let im = &self.im[from..from + 32];
        for (x, y) in re.iter().zip(im) {
            low = lower(low, *x, *y);
        }
        low
    }

    // What the sizes in each block of 32 starts are at most: 2 (re² + im²) is at most 2 (|re| + |im|)².
    fn bounds(&self) -> [i64; 160]
        ensures { Bounded (size_at self.now) (starts self.now / 32) result }
    {
        let mut all = [0i64; 160];
        for (k, bound) in all[..self.re.len() / 32].iter_mut().enumerate() {
            let low = self.lowest(k * 32);
            *bound = squared(Complex { re: low, im: low });
        }
        all
    }

    // The largest size, once the starts from `from` to `end` are looked at too. The promise is one for any choice c of starts that count: the
    // caller leaves out blocks whose bound is too low.
    fn look(&self, best: Largest, from: usize, end: usize) -> Largest
        requires { (from ≤ end) × (end ≤ starts self.now) }
        ensures { (c : ℕ → Bool) → Searched self.now c from best → Searched self.now c end result }
    {
        let mut found = best;
        // An index: it is the start, and names it.
        for i in from..end {
            let next = Largest {
                at: i,
                value: self.size(i),
            };
            found = found.or_later(next);
        }
        found
    }

    // A size that the largest one reaches: the larger of the first start's and of what the block with the highest bound has.
    fn floor(&self, first: Largest, bounds: &[i64]) -> i64
        requires { (length bounds.now ≤ starts self.now / 32) × (first.at < starts self.now) × (first.value ≡ size_at self.now first.at) }
        ensures { (k : ℕ) × (k < starts self.now) × (result ≡ size_at self.now k) }
    {
        if bounds.is_empty() {
            return first.value;
        }
        let from = highest(bounds) * 32;
        self.look(first, from, from + 32).value
    }

    // The largest of the sizes that are `floor` or more, once the 32 starts from `from` on are passed, whose sizes are at most `bound`. They
    // are looked at only where one of them could be `floor` or more, and larger than the best.
    fn block(&self, best: Largest, floor: i64, bound: i64, from: usize) -> Largest
        requires { (from + 32 ≤ starts self.now) × ((i : ℕ) → i < 32 → le_z (size_at self.now (from + i)) bound ≡ true) × Searched self.now (at_least self.now floor) from best }
        ensures { Searched self.now (at_least self.now floor) (from + 32) result }
    {
        if floor <= bound && best.value < bound {
            return self.look(best, from, from + 32);
        }
        best
    }

    // The largest size of all starts, the earliest of equal ones. With what the block of the highest bound has, few others are looked at.
    fn strongest(&self) -> Largest
        requires { 0 < starts self.now }
        ensures { Peaks (size_at self.now) (starts self.now) result }
    {
        let n = self.re.len() / 32;
        let first = Largest {
            at: 0,
            value: self.size(0),
        };
        let bounds = self.bounds();
        let most = &bounds[..n];
        let least = self.floor(first, most);
        let mut best = first;
        for (k, &bound) in most.iter().enumerate() {
            best = self.block(best, least, bound, k * 32);
        }
        self.look(best, n * 32, self.re.len())
    }
}

// A recording that find takes: re and im of as many chips, 256 to 5120 of them, each component from -100000 to 100000.
#[derive(Clone, Copy)]
pub struct Recording<'a> {
    pub re: &'a [i32],
    pub im: &'a [i32],
    pub ghost as_many: { length re.now ≡ length im.now },
    pub ghost long: { 256 ≤ length re.now },
    pub ghost short: { length re.now ≤ 5120 },
    pub ghost re_small: { Bound 100000 re.now },
    pub ghost im_small: { Bound 100000 im.now },
}

impl<'a> Recording<'a> {
    // Refuses 12 re and im differ in length; 16 no length of a recording; 17 a component out of range.
    pub fn new(re: &'a [i32], im: &'a [i32]) -> Result<Recording<'a>, Refusal>
        ensures { answer_by {B = List ℤ × List ℤ} (λ r. (r.re.now, r.im.now)) result ≡ take 3 (find_refusals re.now im.now 0 0) otherwise (re.now, im.now) }
    {
        if re.len() != im.len() {
            return Err(Refusal::LengthsDiffer);
        }
        if !(256..=5120).contains(&re.len()) {
            return Err(Refusal::LengthChipOrSyncCode);
        }
        if components::either_outside(re, im) {
            return Err(Refusal::Component);
        }
        Ok(Recording { re, im })
    }

    // Its peak. The scratch buffers have 15 entries fewer than it has chips, or more.
    pub fn peak(&self, sumre: &mut [i32], sumim: &mut [i32]) -> Peak
        requires { (scratch_length (length self.now.re.now) ≤ length sumre.old) × (scratch_length (length self.now.re.now) ≤ length sumim.old) }
        ensures answer { result ≡ peak_of (value self.now.re.now self.now.im.now) (length self.now.re.now) }
        ensures real { length sumre.new ≡ length sumre.old }
        ensures imaginary { length sumim.new ≡ length sumim.old }
    {
        let starts = self.re.len() - 255;
        let mut t = [0i32; 5120];
        correlate(self.re, &mut *sumre, &mut t);
        correlate(self.im, &mut *sumim, &mut t);
        let sums = Correlations {
            re: &sumre[..starts],
            im: &sumim[..starts],
        };
        let best = sums.strongest();
        Peak {
            start: best.at,
            size: best.value,
        }
    }
}
