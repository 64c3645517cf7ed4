// Draws into buffers of any length, to the end of the recording.
ghost use Rattle.std.specs.Prelude.{◌≡◌, OnErr};
ghost use Rattle.complex.specs.Buffers.{written};
ghost use Rattle.codes.specs.Answers.{answer_of};
ghost use Rattle.codes.specs.Refusals.{after};
ghost use Rattle.bench.specs.BenchCalls.{draw_outcome, draw_call};
ghost use Rattle.bench_lines.specs.Drawing.{after_draw, draw_answer, told};

use crate::State;
use bench::{Answered, Bench};
use codes::refusal::Refusal;
use complex::Complex;
use script::answer::LineAnswer;
use script::faults::Fault;
use script::memory::{Memory, fits};
use std::ops::Range;

// As many entries as a slot has chips.
type SlotBuffer = [i32; 2560];

// What a draw into buffers of n and m entries does and answers, whatever n and m are. A slot has 2,560 chips, so a longer buffer gets no more than
// these two take. Where n and m differ no chip is written, and any two lengths that differ are refused alike.
fn draw_any(
    b: Bench,
    n: u32,
    m: u32,
    re: &mut SlotBuffer,
    im: &mut SlotBuffer,
) -> Answered<usize, Refusal>
    ensures answer { answer_of result.answer ≡ draw_outcome (draw_call b n m) }
    ensures bench { result.bench ≡ after (draw_call b n m) b (λ d. d.bench) }
    ensures real { re.new ≡ after (draw_call b n m) re.old (λ d. written d.chips.re re.old) }
    ensures imaginary { im.new ≡ after (draw_call b n m) im.old (λ d. written d.chips.im im.old) }
{
    if n != m {
        return b.draw(&mut re[..0], &mut im[..1]);
    }
    let count = (n as usize).min(2560);
    b.draw(&mut re[..count], &mut im[..count])
}

impl State {
    // A draw into buffers of n and m entries, which stays undone where the recording has no room for its chips.
    pub fn draw<'a>(&mut self, n: u32, m: u32, memory: &mut Memory) -> Result<LineAnswer, Fault<'a>>
        ensures state { self.new ≡ after_draw self.old (draw_call self.old.bench n m) }
        ensures answer { told result ≡ draw_answer self.old (draw_call self.old.bench n m) }
        ensures err { OnErr result (self.new ≡ self.old) }
        ensures undone { OnErr result (memory.new ≡ memory.old) }
    {
        let mut re = [0; 2560];
        let mut im = [0; 2560];
        let Answered { answer, bench } = draw_any(self.bench, n, m, &mut re, &mut im);
        let count = answer?;
        let chips = self.recording.chips;
        if !fits(chips, count) {
            return Err(Fault::Full(count));
        }
        let end = chips + count;
        append(memory, chips..end, &re, &im);
        self.recording.chips = end;
        self.bench = bench;
        Ok(LineAnswer::Counted(count))
    }
}

// Puts chips at these places, the first one at the first.
fn append(m: &mut Memory, places: Range<usize>, re: &SlotBuffer, im: &SlotBuffer) {
    for (place, (re, im)) in places.zip(re.iter().zip(im)) {
        m.recording.set(place, Complex { re: *re, im: *im });
    }
}
