// Chips of one's own, and silence, to the end of the recording.
ghost use Rattle.std.specs.Prelude.{◌≡◌, OnErr};
ghost use Rattle.recording_lines.specs.Contents.{contents};

use crate::Recording;
use complex::Complex;
use script::answer::LineAnswer;
use script::arguments::Arguments;
use script::faults::Fault;
use script::memory::{Memory, RECORDING, fits};

impl Recording {
    pub fn record<'a>(
        &mut self,
        chips: Arguments<'a>,
        m: &mut Memory,
    ) -> Result<LineAnswer, Fault<'a>>
        ensures state { OnErr result (self.new ≡ self.old) }
        ensures memory { contents self.old m.new ≡ contents self.old m.old }
    {
        let count = self.put(chips, m)?;
        if count == 0 {
            return Err(Fault::Missing);
        }
        self.grow(count)
    }

    // Puts the chips of a line behind the recording's last one, and answers how many there are. By their places, which say where the room ends.
    fn put<'a>(&self, mut chips: Arguments<'a>, m: &mut Memory) -> Result<usize, Fault<'a>>
        ensures { contents self.now m.new ≡ contents self.now m.old }
    {
        for place in self.chips..RECORDING {
            match chips.chip()? {
                Some(z) => m.recording.set(place, z),
                None => return Ok(place - self.chips),
            }
        }
        Ok(RECORDING.saturating_sub(self.chips))
    }

    pub fn silence<'a>(&mut self, count: usize, m: &mut Memory) -> Result<LineAnswer, Fault<'a>>
        ensures state { OnErr result (self.new ≡ self.old) }
        ensures memory { OnErr result (m.new ≡ m.old) }
    {
        let from = self.chips;
        let answer = self.grow(count)?;
        // By the place, for a chip is two entries that the memory has apart.
        for place in from..self.chips {
            m.recording.set(place, Complex::ZERO);
        }
        Ok(answer)
    }

    // So many chips more are part of the recording, where they fit.
    fn grow<'a>(&mut self, count: usize) -> Result<LineAnswer, Fault<'a>>
        ensures { OnErr result (self.new ≡ self.old) }
    {
        if !fits(self.chips, count) {
            return Err(Fault::Full(count));
        }
        self.chips += count;
        Ok(LineAnswer::Done)
    }
}
