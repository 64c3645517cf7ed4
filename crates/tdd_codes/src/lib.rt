// The code rules for C and Rust hosts, as include/tdd_codes.h declares them: each export is the call of `codes` that its name ends with.
// `refusal` is document 01's number, or 0 where the call is accepted; the other fields are 0 where it is refused. A number, and a struct for each call's
// answer: the C interface has no enum.
#![tactic(auto)]

ghost use Rattle.std.specs.Prelude.{◌≡◌, cond, pos};
ghost use Rattle.complex.specs.Arithmetic.{𝟎};
ghost use Rattle.codes.specs.Answers.{answer_of};
ghost use Rattle.codes.specs.Calls.{code_group_call, element_call, related_call, scrambling_chip_call, allocation_call, burst_start_call, primary_chip_call, secondary_chip_call};
ghost use Rattle.codes.specs.Refusals.{after, refusal_of};
ghost use Rattle.codes.specs.Allocation.{silent};

use codes::refusal::{Refusal, number_or_0};
use codes::{Allocated, CellParameter, CodeGroup, burst};
use complex::Complex;

#[repr(C)]
#[derive(Clone, Copy)]
pub struct ElementResult {
    pub refusal: u32,
    pub element: i32,
}

// Element `chip`, from 0, of channelisation code (q, k): 1 or -1. Refuses 3 bad q; 4 k not below q; 16 chip past the end.
#[unsafe(no_mangle)]
pub extern "C" fn tdd_element(q: u32, k: u32, chip: u32) -> ElementResult
    ensures refusal { result.refusal ≡ refusal_of (element_call q k chip) }
    ensures element { result.element ≡ after (element_call q k chip) (pos 0) (λ e. e) }
{
    let answer = codes::element(q, k, chip);
    ElementResult {
        refusal: number_or_0(&answer),
        element: answer.unwrap_or(0),
    }
}

#[repr(C)]
#[derive(Clone, Copy)]
pub struct RelatedResult {
    pub refusal: u32,
    pub related: u32,
}

// Whether codes (q1, k1) and (q2, k2) are related: 1, or 0 where they are not. Refuses 3 and 4 of the first, then 3 and 4 of the second.
#[unsafe(no_mangle)]
pub extern "C" fn tdd_related(q1: u32, k1: u32, q2: u32, k2: u32) -> RelatedResult
    ensures refusal { result.refusal ≡ refusal_of (related_call q1 k1 q2 k2) }
    ensures related { result.related ≡ after (related_call q1 k1 q2 k2) 0 (λ t. cond t 1 0) }
{
    let answer = codes::related(q1, k1, q2, k2);
    RelatedResult {
        refusal: number_or_0(&answer),
        related: answer.map_or(0, u32::from),
    }
}

#[repr(C)]
#[derive(Clone, Copy)]
pub struct GroupResult {
    pub refusal: u32,
    pub group: u32,
}

// The code group of a cell parameter. Refuses 1 parameter above 127.
#[unsafe(no_mangle)]
pub extern "C" fn tdd_code_group(cell: u32) -> GroupResult
    ensures refusal { result.refusal ≡ refusal_of (code_group_call cell) }
    ensures group { result.group ≡ after (code_group_call cell) 0 (λ g. g) }
{
    let answer = codes::code_group(CellParameter(cell));
    GroupResult {
        refusal: number_or_0(&answer),
        group: answer.map_or(0, |g| g.0),
    }
}

#[repr(C)]
#[derive(Clone, Copy)]
pub struct ChipResult {
    pub refusal: u32,
    pub chip: Complex,
}

// The answer of a call that gives a chip.
fn chip_result(answer: Result<Complex, Refusal>) -> ChipResult
    ensures refusal { result.refusal ≡ refusal_of (answer_of answer) }
    ensures chip { result.chip ≡ after (answer_of answer) 𝟎 (λ x. x) }
{
    ChipResult {
        refusal: number_or_0(&answer),
        chip: answer.unwrap_or(Complex::ZERO),
    }
}

// Chip `chip`, from 0, of a cell parameter's scrambling code. Refuses 1 parameter above 127; 16 chip past the end.
#[unsafe(no_mangle)]
pub extern "C" fn tdd_scrambling_chip(cell: u32, chip: u32) -> ChipResult
    ensures refusal { result.refusal ≡ refusal_of (scrambling_chip_call cell chip) }
    ensures chip { result.chip ≡ after (scrambling_chip_call cell chip) 𝟎 (λ x. x) }
{
    chip_result(codes::scrambling_chip(CellParameter(cell), chip))
}

// Chip `chip`, from 0, of the primary sync code. Refuses 16 chip past the end.
#[unsafe(no_mangle)]
pub extern "C" fn tdd_primary_chip(chip: u32) -> ChipResult
    ensures refusal { result.refusal ≡ refusal_of (primary_chip_call chip) }
    ensures chip { result.chip ≡ after (primary_chip_call chip) 𝟎 (λ x. x) }
{
    chip_result(codes::primary_chip(chip))
}

// Chip `chip`, from 0, of secondary sync code `number`. Refuses 16 for a number not listed or a chip past the end.
#[unsafe(no_mangle)]
pub extern "C" fn tdd_secondary_chip(number: u32, chip: u32) -> ChipResult
    ensures refusal { result.refusal ≡ refusal_of (secondary_chip_call number chip) }
    ensures chip { result.chip ≡ after (secondary_chip_call number chip) 𝟎 (λ x. x) }
{
    chip_result(codes::secondary_chip(number, chip))
}

#[repr(C)]
#[derive(Clone, Copy)]
pub struct AllocationResult {
    pub refusal: u32,
    pub codes: Allocated,
}

// The three codes that a group sends in a frame, 1 or 2, and a half, 0 for slot k and 1 for slot k+8: the pair, then the marker.
// Refuses 1 group above 31; 14 case not 1 or 2; 15 frame not 1 or 2, half above 1, or half 1 in case 1.
#[unsafe(no_mangle)]
pub extern "C" fn tdd_allocation(case: u32, group: u32, frame: u32, half: u32) -> AllocationResult
    ensures refusal { result.refusal ≡ refusal_of (allocation_call case group frame half) }
    ensures codes { result.codes ≡ after (allocation_call case group frame half) silent (λ s. s) }
{
    let answer = codes::allocation(case, CodeGroup(group), frame, half);
    AllocationResult {
        refusal: number_or_0(&answer),
        codes: answer.unwrap_or(burst::silent()),
    }
}

#[repr(C)]
#[derive(Clone, Copy)]
pub struct StartResult {
    pub refusal: u32,
    pub start: u32,
}

// The chip of the slot at which a group's burst starts. Refuses 1 group above 31.
#[unsafe(no_mangle)]
pub extern "C" fn tdd_burst_start(group: u32) -> StartResult
    ensures refusal { result.refusal ≡ refusal_of (burst_start_call group) }
    ensures start { result.start ≡ after (burst_start_call group) 0 (λ n. n) }
{
    let start = codes::burst_start(CodeGroup(group));
    StartResult {
        refusal: number_or_0(&start),
        start: start.unwrap_or(0),
    }
}
