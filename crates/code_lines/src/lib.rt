// The calls of the code rules from a line.
#![tactic(auto)]

use codes::refusal::Refusal;
use script::answer::LineAnswer;
use script::commands::CodeCall;

pub mod whole;

pub fn call(call: CodeCall) -> Result<LineAnswer, Refusal> {
    Ok(match call {
        CodeCall::Element { q, k, chip } => LineAnswer::Sign(codes::element(q, k, chip)?),
        CodeCall::Related { q1, k1, q2, k2 } => LineAnswer::Is(codes::related(q1, k1, q2, k2)?),
        CodeCall::CodeGroup { cell } => LineAnswer::Number(codes::code_group(cell)?.0),
        CodeCall::ScramblingChip { cell, chip } => {
            LineAnswer::Chip(codes::scrambling_chip(cell, chip)?)
        }
        CodeCall::PrimaryChip { chip } => LineAnswer::Chip(codes::primary_chip(chip)?),
        CodeCall::SecondaryChip { number, chip } => {
            LineAnswer::Chip(codes::secondary_chip(number, chip)?)
        }
        CodeCall::Allocation {
            case,
            group,
            frame,
            half,
        } => LineAnswer::Allocation(codes::allocation(case, group, frame, half)?),
        CodeCall::BurstStart { group } => LineAnswer::Number(codes::burst_start(group)?),
    })
}
