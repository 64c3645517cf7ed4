// Reading a sync burst: correlations with the codes, and the candidate that beats every other.
ghost use Rattle.std.specs.Prelude.{◌≡◌, ◌+◌, ◌*◌, ◌<◌, ◌+ℤ◌, ℤ, List, length};
ghost use Rattle.std.specs.Int.{w64};
ghost use Rattle.std.proofs.Common.{SFits};
ghost use Rattle.complex.specs.Arithmetic.{◌+j◌, ◌⊗◌, conj};
ghost use Rattle.complex.specs.Buffers.{listed, value};
ghost use Rattle.complex.specs.Fits.{Within, Both, Bound};
ghost use Rattle.codes.specs.Answers.{answer_by};
ghost use Rattle.codes.specs.Refusals.{◌otherwise◌};
ghost use Rattle.codes.specs.PackedSigns.{packed};
ghost use Rattle.codes.specs.SyncCodes.{a, b};
ghost use Rattle.analyser_parts.specs.PartSums.{correlated, part_sums};

use crate::case::Case;
use crate::sums::signed_sum;
use analyser_parts::components;
use analyser_parts::correlation::{sum_of_products, times_one_minus_j};
use codes::refusal::Refusal;
use codes::{burst, sync};
use complex::Complex;

// The sums of each 16 chips with the signs of the sequence a, and with those of b: b is a with its last eight elements negated, so two sums of
// eight chips serve both, their sum and their difference.
fn parts(x: &[i32]) -> ([i32; 16], [i32; 16])
    requires { (length x.now ≡ 256) × Bound 100000 x.now }
    ensures { (result.0 ≡ part_sums x.now (packed a)) × (result.1 ≡ part_sums x.now (packed b)) }
{
    let row = sync::a_row();
    let mut y = [0i32; 16];
    let mut z = [0i32; 16];
    // An index: a part begins at 16 m, and both arrays are written at m.
    for m in 0..16 {
        let first = signed_sum::<8>(x, m * 16, row, 0);
        let last = signed_sum::<8>(x, m * 16 + 8, row, 8);
        y[m] = first + last;
        z[m] = first - last;
    }
    (y, z)
}

// A complex value at 64 bits: `Complex`, which C sees, has 32.
#[derive(Clone, Copy)]
pub struct WideComplex {
    pub re: i64,
    pub im: i64,
}

// s times the conjugate of p.
fn times_conjugate(s: Complex, p: Complex) -> WideComplex
    requires { Both 51200000 s × Both 51200000 p }
    ensures { result.re +j result.im ≡ s ⊗ conj p }
{
    let a = i64::from(s.re);
    let b = i64::from(s.im);
    let c = i64::from(p.re);
    let d = i64::from(p.im);
    WideComplex {
        re: sum_of_products(a, c, b, d),
        im: sum_of_products(b, c, a, -d),
    }
}

// Sums of 256 chips, one for each part of 16 chips.
#[derive(Clone, Copy)]
struct PartSums {
    re: [i32; 16],
    im: [i32; 16],
    ghost re_small: { Bound 1600000 re },
    ghost im_small: { Bound 1600000 im },
}

impl PartSums {
    ghost use Rattle.read_sync.specs.Shares.{product as product_of};

    // The correlation with a code whose parts have the signs of a row. Not inlined, which is a fifth faster: one form serves all rows.
    #[inline(never)]
    fn correlation(&self, signs: u32) -> Complex
        ensures is { result ≡ correlated self.now.re self.now.im signs }
        ensures size { Both 51200000 result }
    {
        times_one_minus_j(Complex {
            re: signed_sum::<16>(&self.re, 0, signs, 0),
            im: signed_sum::<16>(&self.im, 0, signs, 0),
        })
    }

    // The correlation with secondary code i times the conjugate of p; 0 where no code has the number.
    fn product(&self, p: Complex, i: u32) -> WideComplex
        requires { Both 51200000 p }
        ensures { result.re +j result.im ≡ product_of self.now.re self.now.im p i }
    {
        if !sync::is_sync_code(i) {
            return WideComplex { re: 0, im: 0 };
        }
        times_conjugate(self.correlation(sync::secondary_row(i)), p)
    }

    // `product` for each number below sixteen.
    fn products(&self, p: Complex) -> Products
        requires { Both 51200000 p }
        ensures { (result.re ≡ listed 16 (λ i. (product_of self.now.re self.now.im p i).re)) × (result.im ≡ listed 16 (λ i. (product_of self.now.re self.now.im p i).im)) }
    {
        let mut re = [0i64; 16];
        let mut im = [0i64; 16];
        // An index: it is the code's number, and both arrays are written at it.
        for i in 0..16 {
            let d = self.product(p, i as u32);
            re[i] = d.re;
            im[i] = d.im;
        }
        Products { re, im }
    }
}

// The first candidate with the largest score so far, and whether no other has it too: a leader that is not alone has a score, which a later one
// has to beat, so the flag is no Option.
#[derive(Clone, Copy)]
pub struct Leader {
    pub at: u32,
    pub score: i64,
    pub alone: bool,
}

impl Leader {
    ghost use Rattle.read_sync.specs.Leaders.{leader_of_row, leader_of_signs, leader_or_later, leader_with, Led};
    ghost use Rattle.read_sync.specs.Cases.{case_number};

    // The leader of x and -x, numbers 0 and 1.
    fn of_signs(x: i64) -> Leader
        requires { Within 5300000000000000 x }
        ensures is { result ≡ leader_of_signs x }
        ensures led { Led 5300000000000000 2 result }
    {
        if x < 0 {
            Leader {
                at: 1,
                score: -x,
                alone: true,
            }
        } else {
            Leader {
                at: 0,
                score: x,
                alone: 0 < x,
            }
        }
    }

    // The leader of all sums of one of these scores and one of two others: sum 2m + n is of scores m and n.
    fn with(self, other: Leader) -> Leader
        requires { (self.at < 4) × (other.at < 2) × SFits w64 (self.score +ℤ other.score) }
        ensures { result ≡ leader_with self other }
    {
        Leader {
            at: 2 * self.at + other.at,
            score: self.score + other.score,
            alone: self.alone && other.alone,
        }
    }

    // The leader once the candidates from n on are met, `later` theirs.
    pub fn or_later(self, n: u32, later: Leader) -> Leader
        requires { (n < 128) × (later.at < 32) }
        ensures { result ≡ leader_or_later self n later }
    {
        if self.score < later.score {
            return Leader {
                at: n + later.at,
                score: later.score,
                alone: later.alone,
            };
        }
        Leader {
            at: self.at,
            score: self.score,
            alone: later.score < self.score && self.alone,
        }
    }

    // The leader of a row of the allocation table. Its eight candidates send the same codes, each with its own three signs, so the best has
    // those of the three shares, and it is alone where no share is 0.
    fn of_row(case: Case, first: Leader, second: Leader, marker: Leader) -> Leader
        requires { Led 5300000000000000 2 first × Led 5300000000000000 2 second × Led 5300000000000000 2 marker }
        ensures { result ≡ leader_of_row (case_number case) first second marker }
    {
        let best = first.with(second).with(marker);
        Leader {
            at: case.place_in_row(best.at),
            score: best.score,
            alone: best.alone,
        }
    }
}

// The correlations with the secondary codes, each times the conjugate of that with the primary code, by their numbers; 0 where no code has one.
#[derive(Clone, Copy)]
struct Products {
    re: [i64; 16],
    im: [i64; 16],
    ghost re_small: { Bound 5300000000000000 re },
    ghost im_small: { Bound 5300000000000000 im },
}

impl Products {
    ghost use Rattle.read_sync.specs.Cases.{set_count};
    ghost use Rattle.read_sync.specs.Searching.{LeadsFrom};

    // The leader of row q of code set n, counted from 0: eight candidates. A share is the imaginary part of its product where the row's unit is j,
    // else the real one.
    fn row_leader(&self, case: Case, n: u32, q: u32) -> Leader
        requires { (n < set_count case) × (q < 4) }
        ensures { LeadsFrom case self.now.re self.now.im (32 * n + 8 * q) 8 result }
    {
        let r = burst::row_of(q, burst::code_set(1 + n));
        let pair = if r.unit.re == 0 { &self.im } else { &self.re };
        Leader::of_row(
            case,
            Leader::of_signs(pair[r.first as usize]),
            Leader::of_signs(pair[r.second as usize]),
            Leader::of_signs(self.re[r.marker as usize]),
        )
    }

    // The leader of code set n: four rows.
    fn set_leader(&self, case: Case, n: u32) -> Leader
        requires { n < set_count case }
        ensures { LeadsFrom case self.now.re self.now.im (32 * n) 32 result }
    {
        let mut leader = self.row_leader(case, n, 0);
        // An index: it is the row's number, and gives its first candidate.
        for q in 1..4 {
            leader = leader.or_later(8 * q, self.row_leader(case, n, q));
        }
        leader
    }

    // The leader of all candidates, set by set.
    fn leader(&self, case: Case) -> Leader
        ensures { LeadsFrom case self.now.re self.now.im 0 (32 * set_count case) result }
    {
        let mut leader = self.set_leader(case, 0);
        // An index: it is the set's number, and gives its first candidate.
        for n in 1..case.sets() {
            leader = leader.or_later(32 * n, self.set_leader(case, n));
        }
        leader
    }
}

// The 256 chips of a burst, each component from -100000 to 100000.
#[derive(Clone, Copy)]
pub struct Chips<'a> {
    pub re: &'a [i32],
    pub im: &'a [i32],
    pub ghost re_length: { length re.now ≡ 256 },
    pub ghost im_length: { length im.now ≡ 256 },
    pub ghost re_small: { Bound 100000 re.now },
    pub ghost im_small: { Bound 100000 im.now },
}

impl<'a> Chips<'a> {
    ghost use Rattle.read_sync.specs.SyncReading.{candidate_count, score};
    ghost use Rattle.read_sync.specs.Cases.{case_number, chip_refusals};
    ghost use Rattle.read_sync.specs.Leaders.{Leads};

    // Refuses 12 re and im differ in length; 16 a length that is not 256; 17 a component out of range.
    pub fn new(re: &'a [i32], im: &'a [i32]) -> Result<Chips<'a>, Refusal>
        ensures { answer_by {B = List ℤ × List ℤ} (λ x. (x.re.now, x.im.now)) result ≡ chip_refusals re.now im.now otherwise (re.now, im.now) }
    {
        if re.len() != im.len() {
            return Err(Refusal::LengthsDiffer);
        }
        if re.len() != 256 {
            return Err(Refusal::LengthChipOrSyncCode);
        }
        if components::either_outside(re, im) {
            return Err(Refusal::Component);
        }
        Ok(Chips { re, im })
    }

    // The leader of a case's candidates: the sums of each 16 chips are made once, and serve every code.
    pub fn leader(&self, case: Case) -> Leader
        ensures { Leads (score (case_number case) (value self.now.re.now self.now.im.now)) (candidate_count (case_number case)) result }
    {
        let (re_a, re_b) = parts(self.re);
        let (im_a, im_b) = parts(self.im);
        let a = PartSums { re: re_a, im: im_a };
        let b = PartSums { re: re_b, im: im_b };
        b.products(a.correlation(sync::a_repeat_row())).leader(case)
    }
}
