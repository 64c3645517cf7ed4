// The analyser's call read: readings of one code from a field. It takes any numbers and any buffers, refuses by document 01's
// number and leaves every buffer as it was where it refuses.
#![tactic(auto)]

ghost use Rattle.std.specs.Prelude.{◌≡◌, length};
ghost use Rattle.complex.specs.Buffers.{written};
ghost use Rattle.codes.specs.Answers.{answer_of};
ghost use Rattle.codes.specs.Refusals.{outcome, after};
ghost use Rattle.read.specs.Reading.{read_call};

use analyser_parts::components;
use codes::CellParameter;
use codes::refusal::Refusal;
use field::FieldChips;
use reader::Reader;

mod field;
mod one;
mod reader;
mod reading;
mod signed;
mod sixteen;

// Reads code (q, k) from a field of 16 to 1104 chips; the readings, one for q chips, go to `outre` and `outim`.
// Refuses 1 parameter above 127; 3 bad q; 4 k not below q; 12 re and im differ in length; 16 length 0, above 1104 or no
// multiple of 16; 17 a component outside -100000 to 100000; 18 an answer buffer shorter than length/q.
pub fn read(
    cell: CellParameter,
    q: u32,
    k: u32,
    re: &[i32],
    im: &[i32],
    outre: &mut [i32],
    outim: &mut [i32],
) -> Result<(), Refusal>
    ensures answer { answer_of result ≡ outcome (read_call cell.0 q k re.now im.now (length outre.old) (length outim.old)) }
    ensures real { outre.new ≡ after (read_call cell.0 q k re.now im.now (length outre.old) (length outim.old)) outre.old (λ y. written y.re outre.old) }
    ensures imaginary { outim.new ≡ after (read_call cell.0 q k re.now im.now (length outre.old) (length outim.old)) outim.old (λ y. written y.im outim.old) }
{
    let reader = Reader::new(cell, q, k)?;
    let field = FieldChips::new(re, im)?;
    let n = field.len() / reader.code.q as usize;
    if components::is_either_shorter(outre.len(), outim.len(), n) {
        return Err(Refusal::BufferTooShort);
    }
    reading::all(reader, &field, outre, outim);
    Ok(())
}
