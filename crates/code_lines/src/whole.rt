// Whole codes, chip by chip through the public calls.
ghost use Rattle.std.specs.Prelude.{◌≡◌, OnErr};
ghost use Rattle.codes.specs.Answers.{answer_of};
ghost use Rattle.codes.specs.Calls.{element_call};
ghost use Rattle.codes.specs.Refusals.{outcome};
ghost use Rattle.code_lines.specs.Whole.{outcome_of_chip_0};

use codes::refusal::Refusal;
use complex::Complex;
use script::answer::LineAnswer;
use script::commands::WholeCode;
use script::memory::{CODE, Memory};

pub fn code(code: WholeCode, m: &mut Memory) -> Result<LineAnswer, Refusal>
    ensures answer { outcome (answer_of result) ≡ outcome_of_chip_0 code }
    ensures err { OnErr result (m.new ≡ m.old) }
{
    match code {
        WholeCode::Code { q, k } => {
            let element = |i|
                ensures { outcome (answer_of result) ≡ outcome (element_call q k i) }
            { codes::element(q, k, i).map(|re| Complex { re, im: 0 }) };
            put(m, element).map(LineAnswer::Elements)
        }
        WholeCode::Scrambling { cell } => {
            put(m, |i| codes::scrambling_chip(cell, i)).map(LineAnswer::Code)
        }
        WholeCode::Primary => put(m, codes::primary_chip).map(LineAnswer::Code),
        WholeCode::Secondary { number } => {
            put(m, |i| codes::secondary_chip(number, i)).map(LineAnswer::Code)
        }
    }
}

// Puts the chips of a code into the memory, each by its number, and answers how many there are. A code is refused as its chip 0 is.
fn put<F: Fn(u32) -> Result<Complex, Refusal>>(m: &mut Memory, chip: F) -> Result<usize, Refusal>
    requires { F.IsAlwaysCallable chip }
    ensures answer { (first : _) × F.post chip 0 first × (outcome (answer_of result) ≡ outcome (answer_of first)) }
    ensures err { OnErr result (m.new ≡ m.old) }
{
    // A number: `chip` takes it, and the value is set at it.
    for i in 0..CODE {
        match chip(i as u32) {
            Ok(z) => m.code.set(i, z),
            Err(refusal) if i == 0 => return Err(refusal),
            Err(_) => return Ok(i),
        }
    }
    Ok(CODE)
}
