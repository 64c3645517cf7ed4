// The analyser's call harden: hard bits of readings. It takes any buffers,
// refuses by document 01's number and leaves every buffer as it was where it refuses.
#![tactic(auto)]

ghost use Rattle.std.specs.Prelude.{◌≡◌, length};
ghost use Rattle.complex.specs.Buffers.{written};
ghost use Rattle.codes.specs.Answers.{answer_of};
ghost use Rattle.codes.specs.Refusals.{outcome, after};
ghost use Rattle.harden.specs.Hardening.{harden_call};

use codes::refusal::Refusal;

mod hardening;

// Hard bits of readings, one byte a bit, two bits a reading, to `bits`.
// Refuses 12 re and im differ in length; 18 fewer than two bytes a reading.
pub fn harden(re: &[i32], im: &[i32], bits: &mut [u8]) -> Result<(), Refusal>
    ensures answer { answer_of result ≡ outcome (harden_call re.now im.now (length bits.old)) }
    ensures bytes { bits.new ≡ after (harden_call re.now im.now (length bits.old)) bits.old (λ b. written b bits.old) }
{
    if re.len() != im.len() {
        return Err(Refusal::LengthsDiffer);
    }
    if bits.len() / 2 < re.len() {
        return Err(Refusal::BufferTooShort);
    }
    hardening::all(re, im, bits);
    Ok(())
}
