// The code rules of TS 25.223 V3.3.0 as a unit of their own: channelisation codes, scrambling codes, sync codes, which of
// them a code group sends, and where its burst starts. The eight calls take any numbers and refuse by document 01's number (`refusal::Refusal`).
// The modules hold the functions that the crates above call for each chip or block. But for `tree::Code::new` they refuse nothing, and have an answer
// for every number (docs/DECISIONS.md has a table of those outside their range); of the public ones `scrambling::signed_by_j` alone asks
// something, for a number of at most 1 in size.
#![tactic(auto)]

ghost use Rattle.std.specs.Prelude.{◌≡◌};
ghost use Rattle.codes.specs.Answers.{answer_by, answer_of};
ghost use Rattle.codes.specs.Calls.{element_call, related_call, code_group_call, scrambling_chip_call, primary_chip_call, secondary_chip_call, allocation_call, burst_start_call};

use complex::Complex;
use refusal::Refusal;
use tree::Code;

pub mod burst;
pub mod refusal;
pub mod scrambling;
pub mod signs;
pub mod sync;
pub mod tree;

// Named as in the standard's mapping table (table 6): a cell parameter, 0 to 127, and a code group, 0 to 31.
#[repr(C)]
#[derive(Clone, Copy)]
pub struct CellParameter(pub u32);

#[derive(Clone, Copy)]
pub struct CodeGroup(pub u32);

// A secondary sync code's number with the unit that modulates it.
#[repr(C)]
#[derive(Clone, Copy)]
pub struct ModulatedCode {
    pub code: u32,
    pub unit: Complex,
}

// The three codes that a code group sends beside the primary code: the pair, then the marker.
#[repr(C)]
#[derive(Clone, Copy)]
pub struct Allocated {
    pub first: ModulatedCode,
    pub second: ModulatedCode,
    pub marker: ModulatedCode,
}

// Element `chip`, from 0, of channelisation code (q, k): 1 or -1. Refuses 3 bad q; 4 k not below q; 16 chip past the end.
pub fn element(q: u32, k: u32, chip: u32) -> Result<i32, Refusal>
    ensures { answer_of result ≡ element_call q k chip }
{
    let code = Code::new(q, k)?;
    if q <= chip {
        return Err(Refusal::LengthChipOrSyncCode);
    }
    Ok(code.sign(chip))
}

// Whether codes (q1, k1) and (q2, k2) are related. Refuses 3 and 4 of the first, then 3 and 4 of the second.
pub fn related(q1: u32, k1: u32, q2: u32, k2: u32) -> Result<bool, Refusal>
    ensures { answer_of result ≡ related_call q1 k1 q2 k2 }
{
    let first = Code::new(q1, k1)?;
    let second = Code::new(q2, k2)?;
    Ok(first.is_related_to(second))
}

// The code group of a cell parameter. Refuses 1 parameter above 127.
pub fn code_group(p: CellParameter) -> Result<CodeGroup, Refusal>
    ensures { answer_by (λ g. g.0) result ≡ code_group_call p.0 }
{
    if 128 <= p.0 {
        return Err(Refusal::CellOrGroup);
    }
    Ok(scrambling::group_of(p))
}

// Chip `chip`, from 0, of a cell parameter's scrambling code. Refuses 1 parameter above 127; 16 chip past the end.
pub fn scrambling_chip(cell: CellParameter, chip: u32) -> Result<Complex, Refusal>
    ensures { answer_of result ≡ scrambling_chip_call cell.0 chip }
{
    if 128 <= cell.0 {
        return Err(Refusal::CellOrGroup);
    }
    if 16 <= chip {
        return Err(Refusal::LengthChipOrSyncCode);
    }
    Ok(scrambling::element(cell, chip))
}

// Chip `chip`, from 0, of the primary sync code. Refuses 16 chip past the end.
pub fn primary_chip(chip: u32) -> Result<Complex, Refusal>
    ensures { answer_of result ≡ primary_chip_call chip }
{
    if 256 <= chip {
        return Err(Refusal::LengthChipOrSyncCode);
    }
    Ok(sync::primary(chip))
}

// Chip `n`, from 0, of secondary sync code `number`. Refuses 16 for a number not listed or a chip past the end.
pub fn secondary_chip(number: u32, n: u32) -> Result<Complex, Refusal>
    ensures { answer_of result ≡ secondary_chip_call number n }
{
    if !sync::is_sync_code(number) || 256 <= n {
        return Err(Refusal::LengthChipOrSyncCode);
    }
    Ok(sync::listed_chip(number, n))
}

// The three codes that a group sends in a frame, 1 or 2, and a half, 0 for slot k and 1 for slot k+8.
// Refuses 1 group above 31; 14 case not 1 or 2; 15 frame not 1 or 2, half above 1, or half 1 in case 1.
pub fn allocation(case: u32, group: CodeGroup, frame: u32, half: u32) -> Result<Allocated, Refusal>
    ensures { answer_of result ≡ allocation_call case group.0 frame half }
{
    if 32 <= group.0 {
        return Err(Refusal::CellOrGroup);
    }
    if !burst::one_or_two(case) {
        return Err(Refusal::SyncCase);
    }
    if burst::is_bad_frame_or_half(case, frame, half) {
        return Err(Refusal::FrameOrHalf);
    }
    Ok(burst::allocated(case, group, frame, half))
}

// The chip of the slot at which a group's burst starts. Refuses 1 group above 31.
pub fn burst_start(g: CodeGroup) -> Result<u32, Refusal>
    ensures { answer_of result ≡ burst_start_call g.0 }
{
    if 32 <= g.0 {
        return Err(Refusal::CellOrGroup);
    }
    Ok(burst::start_of(g))
}
