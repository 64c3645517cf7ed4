// The records of a plan: each is tested against the gains that those before it made, and not against a bench, which is built once, from the last of them.
ghost use Rattle.std.specs.Prelude.{◌≡◌};
ghost use Rattle.bench.specs.Plans.{gains_of, answer_of_gains};

use crate::{Channel, PlanRefusal, refusals};
use tables::gains::with_gain;

// The gains where these codes are open, and no others, or the first record that fails. Not inlined: load plan would zero its copy of the pairs first.
#[inline(never)]
pub fn gains_of(plan: &[Channel]) -> Result<[u16; 31], PlanRefusal>
    ensures { answer_of_gains result ≡ gains_of plan.now }
{
    let mut gains = [0; 31];
    for (place, c) in plan.iter().enumerate() {
        match refusals::open(&gains, c.q, c.k, c.gain) {
            Ok(code) => gains = with_gain(gains, code, c.gain as u16),
            Err(refusal) => return Err(PlanRefusal { refusal, place }),
        }
    }
    Ok(gains)
}
