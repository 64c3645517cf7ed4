// Readings at spreading factor 16. Each multiplier is 1 or -1, times j at even places, so the chips keep or change their signs and no product is needed.
ghost use Rattle.std.specs.Prelude.{◌≡◌, ℕ, ◌+◌, ◌*◌, ◌/◌, ◌<◌, ◌≤◌, ◌*ℤ◌, length};
ghost use Rattle.complex.specs.Arithmetic.{real, ◌⊗◌};
ghost use Rattle.complex.specs.Buffers.{listed, value, written, ◌at◌};
ghost use Rattle.complex.specs.Fits.{Both};
ghost use Rattle.codes.specs.PackedSigns.{sign_bit, signed_by_j};
ghost use Rattle.codes.specs.Tree.{element};
ghost use Rattle.read.specs.Multipliers.{from_lanes, HasLanes, lane as lane_of, place_sign, Signs};
ghost use Rattle.read.specs.Reading.{reading as reading_of};

use crate::field::FieldChips;
use crate::reader::Reader;
use crate::signed::both_signed;
use codes::signs::sign_at;
use codes::{scrambling, tree};
use complex::Complex;
use std::array;

// The sign of the multiplier at place i, for a row of Annex A.
fn sign(row: u32, k: u32, i: u32) -> i32
    ensures { result ≡ signed_by_j (sign_bit row i *ℤ element 16 k i) i }
{
    scrambling::signed_by_j(sign_at(row, i) * tree::code_sign(16, k, i), i)
}

// The signs of the sixteen places, each 1 or -1.
#[derive(Clone, Copy)]
pub struct PlaceSigns {
    pub signs: [i32; 16],
    ghost known: { Signs signs },
}

impl PlaceSigns {
    // Those of a code of spreading factor 16.
    fn new(reader: Reader) -> PlaceSigns
        requires { reader.code.q ≡ 16 }
        ensures { result.signs ≡ listed 16 (place_sign reader.cell.0 reader.code.k) }
    {
        let row = scrambling::annex_row(reader.cell);
        let signs = array::from_fn(|i| sign(row, reader.code.k, i as u32));
        PlaceSigns { signs }
    }

    // The chip at place i of the sixteen from `from` on, with its sign.
    fn chip(&self, field: &FieldChips, from: usize, i: usize) -> Complex
        requires { (from + 16 ≤ length field.now.re.now) × (i < 16) }
        ensures is { result ≡ real (self.now.signs at i) ⊗ value field.now.re.now field.now.im.now (from + i) }
        ensures size { Both 100000 result }
    {
        let t = self.signs[i];
        both_signed(t, t, field.chip(from + i))
    }

    // The sum of four chips with their signs, four places apart: l, l + 4, l + 8 and l + 12.
    fn lane(&self, field: &FieldChips, from: usize, l: usize) -> Complex
        requires { (from + 16 ≤ length field.now.re.now) × (l < 4) }
        ensures { result ≡ lane_of (◌at◌ self.now.signs) (value field.now.re.now field.now.im.now) from l }
    {
        let a = self.chip(field, from, l);
        let b = self.chip(field, from, l + 4);
        let c = self.chip(field, from, l + 8);
        let d = self.chip(field, from, l + 12);
        a.plus(b).plus(c).plus(d)
    }
}

// Room for the lanes of the longest field, four for sixteen chips.
#[derive(Clone, Copy)]
pub struct Lanes {
    pub re: [i32; 276],
    pub im: [i32; 276],
}

impl Lanes {
    // The lanes of sixteen chips from 16 m on, to places 4 m to 4 m + 3: four stores side by side, by an index, are one vector store.
    fn put(&mut self, signs: &PlaceSigns, field: &FieldChips, m: usize)
        requires { 16 * m + 16 ≤ length field.now.re.now }
        ensures { HasLanes (◌at◌ signs.now.signs) (value field.now.re.now field.now.im.now) (4 * m) self.old.re self.old.im → HasLanes (◌at◌ signs.now.signs) (value field.now.re.now field.now.im.now) (4 * m + 4) self.new.re self.new.im }
    {
        for l in 0..4 {
            let y = signs.lane(field, 16 * m, l);
            self.re[4 * m + l] = y.re;
            self.im[4 * m + l] = y.im;
        }
    }

    // Those of every sixteen chips.
    fn new(signs: &PlaceSigns, field: &FieldChips) -> Lanes
        ensures { HasLanes (◌at◌ signs.now.signs) (value field.now.re.now field.now.im.now) (4 * (length field.now.re.now / 16)) result.re result.im }
    {
        let mut lanes = Lanes {
            re: [0; 276],
            im: [0; 276],
        };
        // By an index: the lanes of block m stand from 4m on.
        for m in 0..field.len() / 16 {
            lanes.put(signs, field, m);
        }
        lanes
    }

    // Reading m, from its four lanes.
    fn reading(&self, m: usize) -> Complex
        requires { (m < 69) × ((c : ℕ) → c < 4 * m + 4 → Both 400000 (value self.now.re self.now.im c)) }
        ensures { result ≡ from_lanes (value self.now.re self.now.im) m }
    {
        let even = self.at(4 * m).plus(self.at(4 * m + 2));
        let odd = self.at(4 * m + 1).plus(self.at(4 * m + 3));
        odd.plus(even.rotated(1))
    }

    // Lane c.
    fn at(&self, c: usize) -> Complex
        requires { c < 276 }
        ensures { result ≡ value self.now.re self.now.im c }
    {
        complex::value_at(&self.re, &self.im, c)
    }

    // The first n readings, to the answer buffers. By an index: each takes four lanes, and goes to two buffers.
    fn put_readings(&self, n: usize, outre: &mut [i32], outim: &mut [i32])
        requires { (n ≤ 69) × (n ≤ length outre.old) × (n ≤ length outim.old) × ((c : ℕ) → c < 4 * n → Both 400000 (value self.now.re self.now.im c)) }
        ensures real { outre.new ≡ written (listed n (λ m. (from_lanes (value self.now.re self.now.im) m).re)) outre.old }
        ensures imaginary { outim.new ≡ written (listed n (λ m. (from_lanes (value self.now.re self.now.im) m).im)) outim.old }
    {
        for m in 0..n {
            let y = self.reading(m);
            outre[m] = y.re;
            outim[m] = y.im;
        }
    }
}

// Every reading of code (16, k). Signs are changed four at a time, where products of 32-bit numbers would go one by one.
pub fn all(reader: Reader, field: &FieldChips, outre: &mut [i32], outim: &mut [i32])
    requires { (reader.code.q ≡ 16) × (length field.now.re.now / 16 ≤ length outre.old) × (length field.now.re.now / 16 ≤ length outim.old) }
    ensures real { outre.new ≡ written (listed (length field.now.re.now / 16) (λ n. (reading_of reader.cell.0 16 reader.code.k (value field.now.re.now field.now.im.now) n).re)) outre.old }
    ensures imaginary { outim.new ≡ written (listed (length field.now.re.now / 16) (λ n. (reading_of reader.cell.0 16 reader.code.k (value field.now.re.now field.now.im.now) n).im)) outim.old }
{
    let signs = PlaceSigns::new(reader);
    let lanes = Lanes::new(&signs, field);
    lanes.put_readings(field.len() / 16, outre, outim);
}
