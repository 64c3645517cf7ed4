// The calls that make a recording of chips and read it. They leave the bench alone.
#![tactic(auto)]

ghost use Rattle.std.specs.Prelude.{◌≡◌, OnErr};
ghost use Rattle.recording_lines.specs.Contents.{contents};

use script::answer::LineAnswer;
use script::commands::RecordingCall;
use script::faults::Fault;
use script::memory::Memory;
use script::noise;

mod appending;
mod reading;
mod sync;

// What lines find and leave beside the bench: how many chips the recording has, how many readings the last accepted read gave, and whether long lines and refusals are told
// in brief.
#[derive(Clone, Copy, Default)]
pub struct Recording {
    pub chips: usize,
    pub readings: usize,
    pub brief: bool,
}

impl Recording {
    pub fn call<'a>(
        &mut self,
        call: RecordingCall<'a>,
        m: &mut Memory,
    ) -> Result<LineAnswer, Fault<'a>>
        ensures state { OnErr result (self.new ≡ self.old) }
        ensures memory { OnErr result (contents self.old m.new ≡ contents self.old m.old) }
    {
        match call {
            RecordingCall::Record { chips } => self.record(chips, m),
            RecordingCall::Silence { count } => self.silence(count as usize, m),
            RecordingCall::Noise { part, seed, size } => {
                noise::add(part, self.chips, seed, size, m)?;
                Ok(LineAnswer::Done)
            }
            RecordingCall::Erase => {
                self.chips = 0;
                Ok(LineAnswer::Done)
            }
            RecordingCall::Show { part } => {
                let places = part.within(self.chips)?;
                Ok(LineAnswer::Chips {
                    from: places.start,
                    count: places.len(),
                })
            }
            RecordingCall::Read { cell, q, k, part } => {
                self.readings = reading::read(cell, q, k, part.within(self.chips)?, m)?;
                Ok(LineAnswer::Readings(self.readings))
            }
            RecordingCall::Harden => { reading::harden(self.readings, m) }
            RecordingCall::ReadSync { case, part } => sync::read_sync(
                case,
                part.within(self.chips)?,
                m,
            ),
            RecordingCall::Find { part } => sync::find(part.within(self.chips)?, m),
        }
    }
}
