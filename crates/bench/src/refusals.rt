// The refusals of the bench's calls. Where codes are asked for, the gains are lent and not the settings
// that hold them, which are 37 times as large: the answer is that of any settings with these gains and, for load bits, this type. A call that takes a code
// gets it back as one.
ghost use Rattle.std.specs.Prelude.{◌≡◌, ℕ, [], ◌∷◌, not, eqb};
ghost use Rattle.codes.specs.Answers.{answer_by, answer_of};
ghost use Rattle.codes.specs.Refusals.{◌if◌, ◌otherwise◌};
ghost use Rattle.slot.specs.declared.Settings.{Settings};
ghost use Rattle.slot.specs.Slot.{bit_count};
ghost use Rattle.slot.specs.View.{view};
ghost use Rattle.tables.specs.OpenCodes.{clashes};
ghost use Rattle.bench.specs.BenchCalls.{bad_gain, close_refusals, draw_refusals, load_bits_refusals, open_refusals, set_cell_refusals, set_gain_refusals, set_sync_refusals, some_code, start_refusals};

use codes::refusal::Refusal;
use codes::tree::Code;
use codes::{CellParameter, burst};
use slot::{Settings, parts};
use tables::bits::has_byte_above_1;
use tables::gains::{any_clash, is_open};

pub fn set_cell(cell: CellParameter, kind: u32) -> Result<(), Refusal>
    ensures { answer_of result ≡ set_cell_refusals cell.0 kind otherwise tt }
{
    if 128 <= cell.0 {
        return Err(Refusal::CellOrGroup);
    }
    match kind {
        1 | 2 | 3 => Ok(()),
        _ => Err(Refusal::BurstType),
    }
}

// A gain is tested as it comes, before it is narrowed.
fn check_gain(gain: u32) -> Result<(), Refusal>
    ensures { answer_of result ≡ (5 if bad_gain gain ∷ []) otherwise tt }
{
    if gain < 1 || 4095 < gain {
        return Err(Refusal::Gain);
    }
    Ok(())
}

// Whether an open code is related to this one: a test for each factor. The factors are written out, for the check does not find the proof of a chain
// over them.
fn is_related_to_open(gains: &[u16; 31], code: Code) -> bool
    ensures { result ≡ some_code (clashes gains.now code.q code.k) }
{
    any_clash(gains, code.q, code.k, 1)
        | any_clash(gains, code.q, code.k, 2)
        | any_clash(gains, code.q, code.k, 4)
        | any_clash(gains, code.q, code.k, 8)
        | any_clash(gains, code.q, code.k, 16)
}

pub fn open(gains: &[u16; 31], q: u32, k: u32, gain: u32) -> Result<Code, Refusal>
    ensures { (s : Settings) → s.gains ≡ gains.now → answer_by {B = ℕ × ℕ} (λ c. (c.q, c.k)) result ≡ open_refusals (view s) q k gain otherwise (q, k) }
{
    let code = Code::new(q, k)?;
    check_gain(gain)?;
    if is_related_to_open(gains, code) {
        return Err(Refusal::Related);
    }
    Ok(code)
}

pub fn close(gains: &[u16; 31], q: u32, k: u32) -> Result<Code, Refusal>
    ensures { (s : Settings) → s.gains ≡ gains.now → answer_by {B = ℕ × ℕ} (λ c. (c.q, c.k)) result ≡ close_refusals (view s) q k otherwise (q, k) }
{
    let code = Code::new(q, k)?;
    if !is_open(gains, code) {
        return Err(Refusal::NotOpen);
    }
    Ok(code)
}

pub fn set_gain(gains: &[u16; 31], q: u32, k: u32, gain: u32) -> Result<Code, Refusal>
    ensures { (s : Settings) → s.gains ≡ gains.now → answer_by {B = ℕ × ℕ} (λ c. (c.q, c.k)) result ≡ set_gain_refusals (view s) q k gain otherwise (q, k) }
{
    let code = Code::new(q, k)?;
    check_gain(gain)?;
    if !is_open(gains, code) {
        return Err(Refusal::NotOpen);
    }
    Ok(code)
}

// How many bits a code has in a burst type.
fn bit_count(kind: u32, code: Code) -> usize
    ensures { result ≡ bit_count kind code.q }
{
    let p = parts::parts_of(kind);
    2 * (p.field1 + p.field2) / code.q as usize
}

pub fn load_bits(gains: &[u16; 31], kind: u32, q: u32, k: u32, bits: &[u8]) -> Result<Code, Refusal>
    ensures { (s : Settings) → s.gains ≡ gains.now → s.kind ≡ kind → answer_by {B = ℕ × ℕ} (λ c. (c.q, c.k)) result ≡ load_bits_refusals (view s) q k bits.now otherwise (q, k) }
{
    // 3, 4 and 7, as close has them.
    let code = close(gains, q, k)?;
    if bits.len() != bit_count(kind, code) {
        return Err(Refusal::BitCount);
    }
    if has_byte_above_1(bits) {
        return Err(Refusal::BitValue);
    }
    Ok(code)
}

#[tactic(auto, unfolding(slot::specs::View::view))]
pub fn set_sync(
    s: Settings,
    case: u32,
    frame: u32,
    half: u32,
    gp: u32,
    gs: u32,
) -> Result<(), Refusal>
    ensures { answer_of result ≡ set_sync_refusals (view s) case frame half gp gs otherwise tt }
{
    if s.kind != 1 {
        return Err(Refusal::BurstTypeNot1);
    }
    if !burst::one_or_two(case) {
        return Err(Refusal::SyncCase);
    }
    if burst::is_bad_frame_or_half(case, frame, half) {
        return Err(Refusal::FrameOrHalf);
    }
    check_gain(gp)?;
    check_gain(gs)
}

// Where a slot is under way while `running` is not 0.
pub fn start(running: u8) -> Result<(), Refusal>
    ensures { answer_of result ≡ start_refusals (not (eqb running 0)) otherwise tt }
{
    if running != 0 {
        return Err(Refusal::SlotUnderWay);
    }
    Ok(())
}

// For buffers of m and n entries, none of which is read, where a slot is under way while `running` is not 0.
pub fn draw(running: u8, m: usize, n: usize) -> Result<(), Refusal>
    ensures { answer_of result ≡ draw_refusals (not (eqb running 0)) m n otherwise tt }
{
    if running == 0 {
        return Err(Refusal::NoSlot);
    }
    if m != n {
        return Err(Refusal::LengthsDiffer);
    }
    Ok(())
}
