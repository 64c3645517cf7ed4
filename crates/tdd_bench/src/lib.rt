// The bench and the analyser for C and Rust hosts, as include/tdd_bench.h declares them: each export is the call that its name ends with.
// A bench goes in by value, and the new one comes back beside the answer. `refusal` is document 01's number, or 0 where the call is accepted; place,
// count and the values of an answer are 0 where there is none.
#![tactic(auto)]

ghost use Rattle.std.specs.Prelude.{◌≡◌, pos, length, take};
ghost use Rattle.complex.specs.Buffers.{written};
ghost use Rattle.codes.specs.Answers.{answer_of};
ghost use Rattle.codes.specs.Refusals.{after, refusal_of};
ghost use Rattle.bench.specs.BenchCalls.{close_call, clear_sync_call, draw_call, fresh, left_by, load_bits_call, load_plan_call, open_call, plan_left_by, set_cell_call, set_gain_call, set_sync_call, start_call};
ghost use Rattle.read.specs.Reading.{read_call};
ghost use Rattle.harden.specs.Hardening.{harden_call};
ghost use Rattle.read_sync.specs.SyncReading.{read_sync_call};
ghost use Rattle.find.specs.Finding.{find_call, ScratchLeft};
ghost use Rattle.tdd_bench.specs.PlanResults.{place_of, plan_refusal_of};

use bench::{Answered, Bench, PlanRecords};
use codes::refusal::{Refusal, number_or_0};
use codes::{CellParameter, CodeGroup};
use find::Peak;
use read_sync::Candidate;

#[repr(C)]
#[derive(Clone, Copy)]
pub struct CallResult {
    pub refusal: u32,
    pub bench: Bench,
}

#[repr(C)]
#[derive(Clone, Copy)]
pub struct PlanResult {
    pub refusal: u32,
    pub place: usize,
    pub bench: Bench,
}

#[repr(C)]
#[derive(Clone, Copy)]
pub struct DrawResult {
    pub refusal: u32,
    pub count: usize,
    pub bench: Bench,
}

#[repr(C)]
#[derive(Clone, Copy)]
pub struct SyncResult {
    pub refusal: u32,
    pub group: u32,
    pub frame: u32,
    pub half: u32,
}

#[repr(C)]
#[derive(Clone, Copy)]
pub struct FindResult {
    pub refusal: u32,
    pub start: usize,
    pub size: i64,
}

// What a call that only changes settings, or starts a slot, answered and left.
fn call_result(r: Answered<(), Refusal>) -> CallResult
    ensures refusal { result.refusal ≡ refusal_of (answer_of r.answer) }
    ensures bench { result.bench ≡ r.bench }
{
    CallResult {
        refusal: number_or_0(&r.answer),
        bench: r.bench,
    }
}

// Parameter 0, type 1, nothing open, no sync, no slot.
#[unsafe(no_mangle)]
pub extern "C" fn tdd_bench_fresh() -> Bench
    ensures { result ≡ fresh }
{
    Bench::fresh()
}

#[unsafe(no_mangle)]
pub extern "C" fn tdd_bench_set_cell(bench: Bench, cell: u32, kind: u32) -> CallResult
    ensures refusal { result.refusal ≡ refusal_of (set_cell_call bench (record { 0 = cell }) kind) }
    ensures bench { result.bench ≡ left_by (set_cell_call bench (record { 0 = cell }) kind) bench }
{
    call_result(bench.set_cell(CellParameter(cell), kind))
}

#[unsafe(no_mangle)]
pub extern "C" fn tdd_bench_open(bench: Bench, q: u32, k: u32, gain: u32) -> CallResult
    ensures refusal { result.refusal ≡ refusal_of (open_call bench q k gain) }
    ensures bench { result.bench ≡ left_by (open_call bench q k gain) bench }
{
    call_result(bench.open(q, k, gain))
}

// Load plan of the first `count` records, or of all 17 where `count` is larger: of a longer plan the first 17 records decide.
#[unsafe(no_mangle)]
pub extern "C" fn tdd_bench_load_records(
    bench: Bench,
    plan: PlanRecords,
    count: usize,
) -> PlanResult
    ensures refusal { result.refusal ≡ plan_refusal_of (load_plan_call bench (take count plan.records)) }
    ensures place { result.place ≡ place_of (load_plan_call bench (take count plan.records)) }
    ensures bench { result.bench ≡ plan_left_by (load_plan_call bench (take count plan.records)) bench }
{
    let loaded = bench.load_records(plan, count);
    match loaded.answer {
        Ok(()) => PlanResult {
            refusal: 0,
            place: 0,
            bench: loaded.bench,
        },
        Err(r) => PlanResult {
            refusal: r.refusal.number(),
            place: r.place,
            bench: loaded.bench,
        },
    }
}

#[unsafe(no_mangle)]
pub extern "C" fn tdd_bench_close(bench: Bench, q: u32, k: u32) -> CallResult
    ensures refusal { result.refusal ≡ refusal_of (close_call bench q k) }
    ensures bench { result.bench ≡ left_by (close_call bench q k) bench }
{
    call_result(bench.close(q, k))
}

#[unsafe(no_mangle)]
pub extern "C" fn tdd_bench_set_gain(bench: Bench, q: u32, k: u32, gain: u32) -> CallResult
    ensures refusal { result.refusal ≡ refusal_of (set_gain_call bench q k gain) }
    ensures bench { result.bench ≡ left_by (set_gain_call bench q k gain) bench }
{
    call_result(bench.set_gain(q, k, gain))
}

#[unsafe(no_mangle)]
pub extern "C" fn tdd_bench_load_bits(bench: Bench, q: u32, k: u32, bits: &[u8]) -> CallResult
    ensures refusal { result.refusal ≡ refusal_of (load_bits_call bench q k bits.now) }
    ensures bench { result.bench ≡ left_by (load_bits_call bench q k bits.now) bench }
{
    call_result(bench.load_bits(q, k, bits))
}

#[unsafe(no_mangle)]
pub extern "C" fn tdd_bench_set_sync(
    bench: Bench,
    case: u32,
    frame: u32,
    half: u32,
    gp: u32,
    gs: u32,
) -> CallResult
    ensures refusal { result.refusal ≡ refusal_of (set_sync_call bench case frame half gp gs) }
    ensures bench { result.bench ≡ left_by (set_sync_call bench case frame half gp gs) bench }
{
    call_result(bench.set_sync(case, frame, half, gp, gs))
}

#[unsafe(no_mangle)]
pub extern "C" fn tdd_bench_clear_sync(bench: Bench) -> CallResult
    ensures refusal { result.refusal ≡ refusal_of (clear_sync_call bench) }
    ensures bench { result.bench ≡ left_by (clear_sync_call bench) bench }
{
    call_result(bench.clear_sync())
}

#[unsafe(no_mangle)]
pub extern "C" fn tdd_bench_start(bench: Bench) -> CallResult
    ensures refusal { result.refusal ≡ refusal_of (start_call bench) }
    ensures bench { result.bench ≡ left_by (start_call bench) bench }
{
    call_result(bench.start())
}

#[unsafe(no_mangle)]
pub extern "C" fn tdd_bench_draw(bench: Bench, re: &mut [i32], im: &mut [i32]) -> DrawResult
    ensures refusal { result.refusal ≡ refusal_of (draw_call bench (length re.old) (length im.old)) }
    ensures count { result.count ≡ after (draw_call bench (length re.old) (length im.old)) 0 (λ d. d.count) }
    ensures bench { result.bench ≡ after (draw_call bench (length re.old) (length im.old)) bench (λ d. d.bench) }
    ensures real { re.new ≡ after (draw_call bench (length re.old) (length im.old)) re.old (λ d. written d.chips.re re.old) }
    ensures imaginary { im.new ≡ after (draw_call bench (length re.old) (length im.old)) im.old (λ d. written d.chips.im im.old) }
{
    let drawn = bench.draw(re, im);
    DrawResult {
        refusal: number_or_0(&drawn.answer),
        count: drawn.answer.unwrap_or(0),
        bench: drawn.bench,
    }
}

// Answers the refusal alone: the readings are in `outre` and `outim`.
#[unsafe(no_mangle)]
pub extern "C" fn tdd_read(
    cell: u32,
    q: u32,
    k: u32,
    re: &[i32],
    im: &[i32],
    outre: &mut [i32],
    outim: &mut [i32],
) -> u32
    ensures refusal { result ≡ refusal_of (read_call cell q k re.now im.now (length outre.old) (length outim.old)) }
    ensures real { outre.new ≡ after (read_call cell q k re.now im.now (length outre.old) (length outim.old)) outre.old (λ y. written y.re outre.old) }
    ensures imaginary { outim.new ≡ after (read_call cell q k re.now im.now (length outre.old) (length outim.old)) outim.old (λ y. written y.im outim.old) }
{
    number_or_0(&read::read(CellParameter(cell), q, k, re, im, outre, outim))
}

// Answers the refusal alone: the bits are in `bits`.
#[unsafe(no_mangle)]
pub extern "C" fn tdd_harden(re: &[i32], im: &[i32], bits: &mut [u8]) -> u32
    ensures refusal { result ≡ refusal_of (harden_call re.now im.now (length bits.old)) }
    ensures bytes { bits.new ≡ after (harden_call re.now im.now (length bits.old)) bits.old (λ b. written b bits.old) }
{
    number_or_0(&harden::harden(re, im, bits))
}

#[unsafe(no_mangle)]
pub extern "C" fn tdd_read_sync(case: u32, re: &[i32], im: &[i32]) -> SyncResult
    ensures refusal { result.refusal ≡ refusal_of (read_sync_call case re.now im.now) }
    ensures group { result.group ≡ after (read_sync_call case re.now im.now) 0 (λ c. c.group.0) }
    ensures frame { result.frame ≡ after (read_sync_call case re.now im.now) 0 (λ c. c.frame) }
    ensures half { result.half ≡ after (read_sync_call case re.now im.now) 0 (λ c. c.half) }
{
    let answer = read_sync::read_sync(case, re, im);
    let c = answer.unwrap_or(Candidate {
        group: CodeGroup(0),
        frame: 0,
        half: 0,
    });
    SyncResult {
        refusal: number_or_0(&answer),
        group: c.group.0,
        frame: c.frame,
        half: c.half,
    }
}

#[unsafe(no_mangle)]
pub extern "C" fn tdd_find(
    re: &[i32],
    im: &[i32],
    sumre: &mut [i32],
    sumim: &mut [i32],
) -> FindResult
    ensures refusal { result.refusal ≡ refusal_of (find_call re.now im.now (length sumre.old) (length sumim.old)) }
    ensures start { result.start ≡ after (find_call re.now im.now (length sumre.old) (length sumim.old)) 0 (λ p. p.start) }
    ensures size { result.size ≡ after (find_call re.now im.now (length sumre.old) (length sumim.old)) (pos 0) (λ p. p.size) }
    ensures real { ScratchLeft (find_call re.now im.now (length sumre.old) (length sumim.old)) sumre.old sumre.new }
    ensures imaginary { ScratchLeft (find_call re.now im.now (length sumre.old) (length sumim.old)) sumim.old sumim.new }
{
    let answer = find::find(re, im, sumre, sumim);
    let p = answer.unwrap_or(Peak { start: 0, size: 0 });
    FindResult {
        refusal: number_or_0(&answer),
        start: p.start,
        size: p.size,
    }
}
