// The lines that change settings or start a slot: every call of the bench but draw.
#![tactic(auto)]

ghost use Rattle.std.specs.Prelude.{◌≡◌, OnErr};

use bench::{Answered, Bench, PlanRefusal};
use bits::Bits;
use codes::refusal::Refusal;
use plans::Plan;
use script::answer::LineAnswer;
use script::commands::SettingCall;
use script::faults::Fault;

mod bits;
mod plans;

pub fn call<'a>(call: SettingCall<'a>, b: &mut Bench) -> Result<LineAnswer, Fault<'a>>
    ensures { OnErr result (b.new ≡ b.old) }
{
    let Answered { answer, bench } = match call {
        SettingCall::Settings => return Ok(LineAnswer::Settings),
        SettingCall::LoadPlan { records } => return load_plan(Plan::of(records)?, b),
        SettingCall::LoadBits { q, k, bits } => load_bits(q, k, Bits::of(bits)?, *b),
        SettingCall::SetCell { cell, kind } => b.set_cell(cell, kind),
        SettingCall::Open { q, k, gain } => b.open(q, k, gain),
        SettingCall::Close { q, k } => b.close(q, k),
        SettingCall::SetGain { q, k, gain } => b.set_gain(q, k, gain),
        SettingCall::SetSync {
            case,
            frame,
            half,
            gp,
            gs,
        } => b.set_sync(case, frame, half, gp, gs),
        SettingCall::ClearSync => b.clear_sync(),
        SettingCall::Start => b.start(),
    };
    *b = bench;
    answer?;
    Ok(LineAnswer::Done)
}

fn load_plan<'a>(plan: Plan, b: &mut Bench) -> Result<LineAnswer, Fault<'a>>
    ensures { OnErr result (b.new ≡ b.old) }
{
    let Answered { answer, bench } = b.load_plan(plan.records());
    *b = bench;
    match answer {
        Ok(()) => Ok(LineAnswer::Done),
        Err(PlanRefusal { refusal, place }) => Err(Fault::RefusedAt(refusal, place)),
    }
}

// Where q is no factor, the load is refused 3 whatever the bits are.
fn load_bits<'a>(q: u32, k: u32, bits: Bits<'a>, b: Bench) -> Answered<(), Refusal>
    ensures { OnErr result.answer (result.bench ≡ b) }
{
    let due = bit_count(b.settings.kind, q);
    let mut room = [0; bits::ROOM];
    b.load_bits(q, k, bits.put(due, &mut room))
}

// How many bits a code of factor q has in a burst type. Where q is no factor it is some number.
fn bit_count(kind: u32, q: u32) -> usize {
    let p = slot::parts::parts_of(kind);
    let bits = p.field1.saturating_add(p.field2).saturating_mul(2);
    bits.checked_div(q as usize).unwrap_or(0)
}
