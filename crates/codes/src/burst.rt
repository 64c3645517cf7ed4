// Which secondary codes a code group sends, with which units, and where its burst starts.
ghost use Rattle.std.specs.Prelude.{◌≡◌, cond, leb};
ghost use Rattle.complex.specs.Arithmetic.{real, ◌⊗◌};
ghost use Rattle.complex.specs.Fits.{Both};
ghost use Rattle.codes.specs.Signs.{minus_if};
ghost use Rattle.codes.specs.Allocation.{allocation, bad_frame_or_half, case_1, case_2, code_set, one_or_two, allocation_row, signed, silent, with_unit};
ghost use Rattle.codes.specs.Burst.{burst_start};

use crate::{Allocated, CodeGroup, ModulatedCode};
use complex::Complex;

// Whether n is 1 or 2, as a case and a frame must be.
#[tactic(auto, unfolding(crate::specs::Allocation::one_or_two))]
pub fn one_or_two(n: u32) -> bool
    ensures { result ≡ one_or_two n }
{
    matches!(n, 1 | 2)
}

// Whether the frame is not 1 or 2, the half above 1, or the half 1 in case 1.
#[tactic(auto, unfolding(crate::specs::Allocation::bad_frame_or_half))]
pub fn is_bad_frame_or_half(case: u32, frame: u32, half: u32) -> bool
    ensures { result ≡ bad_frame_or_half case frame half }
{
    !one_or_two(frame) || 1 < half || (half == 1 && case == 1)
}

// A code set (A, B, D).
#[derive(Clone, Copy)]
pub struct CodeSet {
    pub a: u32,
    pub b: u32,
    pub d: u32,
}

// Code set n of the four; 0, 0, 0, which is no set, for any other number: docs/DECISIONS.md names this answer, so it is no Option.
#[tactic(auto, unfolding(crate::specs::Allocation::code_set))]
pub fn code_set(n: u32) -> CodeSet
    ensures { result ≡ code_set n }
{
    let (a, b, d) = match n {
        1 => (1, 3, 5),
        2 => (10, 13, 14),
        3 => (0, 6, 12),
        4 => (4, 8, 15),
        _ => (0, 0, 0),
    };
    CodeSet { a, b, d }
}

// A code with its unit, or with the unit's negative.
#[tactic(auto, using(crate::proofs::Allocations::sign_times))]
fn modulated(code: u32, unit: Complex, negative: bool) -> ModulatedCode
    requires { Both 1 unit }
    ensures { result ≡ with_unit code (real (minus_if negative) ⊗ unit) }
{
    let unit = if negative { unit.rotated(2) } else { unit };
    ModulatedCode { code, unit }
}

// A row of the allocation table for a code set: a pair of codes with the unit of both, and the marker's code.
#[derive(Clone, Copy)]
pub struct AllocationRow {
    pub first: u32,
    pub second: u32,
    pub unit: Complex,
    pub marker: u32,
}

// Row n of the four; codes 0 with unit 0 for any other number, as docs/DECISIONS.md names it.
#[tactic(auto, unfolding(crate::specs::Allocation::allocation_row))]
pub fn row_of(n: u32, set: CodeSet) -> AllocationRow
    ensures { result ≡ allocation_row n set }
{
    let CodeSet { a, b, d } = set;
    let (first, second, unit, marker) = match n {
        0 => (a, b, Complex::ONE, d),
        1 => (a, b, Complex::J, d),
        2 => (a, d, Complex::J, b),
        3 => (b, d, Complex::J, a),
        _ => (0, 0, Complex::ZERO, 0),
    };
    AllocationRow {
        first,
        second,
        unit,
        marker,
    }
}

// The three codes of a row of the table for a code set, each with its unit; the flags say which of the pair and whether the marker is negative.
#[tactic(auto, unfolding(crate::specs::Allocation::signed), using(crate::proofs::Allocations::times_one))]
fn arranged(row: u32, set: u32, first: bool, second: bool, marker: bool) -> Allocated
    ensures { result ≡ signed (allocation_row row (code_set set)) (minus_if first) (minus_if second) (minus_if marker) }
{
    let r = row_of(row, code_set(set));
    Allocated {
        first: modulated(r.first, r.unit, first),
        second: modulated(r.second, r.unit, second),
        marker: modulated(r.marker, Complex::ONE, marker),
    }
}

// The codes of group g in case 1.
#[tactic(auto, unfolding(crate::specs::Allocation::case_1))]
fn case_1(g: u32, frame: u32) -> Allocated
    ensures { result ≡ case_1 g frame }
{
    let r = g % 16;
    arranged(r / 4, 1 + g / 16, 2 <= r % 4, r % 2 == 1, frame == 2)
}

// The codes of group g in case 2.
#[tactic(auto, unfolding(crate::specs::Allocation::case_2))]
fn case_2(g: u32, frame: u32, half: u32) -> Allocated
    ensures { result ≡ case_2 g frame half }
{
    let r = g % 8;
    arranged(
        r / 2,
        1 + g / 8,
        frame == 2,
        (frame == 2) != (r % 2 == 1),
        half == 1,
    )
}

// The codes of a group with their units in a case, a frame and a half; units of 0 outside the range of any of them.
#[tactic(auto, unfolding(crate::specs::Allocation::allocation, crate::specs::Allocation::one_or_two))]
pub fn allocated(case: u32, group: CodeGroup, frame: u32, half: u32) -> Allocated
    ensures { result ≡ allocation case group.0 frame half }
{
    if 32 <= group.0 || is_bad_frame_or_half(case, frame, half) {
        return silent();
    }
    match case {
        1 => case_1(group.0, frame),
        2 => case_2(group.0, frame, half),
        _ => silent(),
    }
}

// Three codes with units of 0: nothing is sent.
pub fn silent() -> Allocated
    ensures { result ≡ silent }
{
    let none = ModulatedCode {
        code: 0,
        unit: Complex::ZERO,
    };
    Allocated {
        first: none,
        second: none,
        marker: none,
    }
}

// The chip of the slot at which a group's burst starts; 0 for a group above 31.
pub fn start_of(group: CodeGroup) -> u32
    ensures { result ≡ cond (leb 32 group.0) 0 (burst_start group.0) }
{
    match group.0 {
        g @ 0..16 => 48 * g,
        g @ 16..32 => 720 + 48 * g,
        _ => 0,
    }
}
