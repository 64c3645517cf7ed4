// What lines find and leave: each is handed to what answers it, and the bench's draws are answered here.
#![tactic(auto)]

ghost use Rattle.std.specs.Prelude.{◌≡◌, OnErr};
ghost use Rattle.recording_lines.specs.Contents.{contents};

use bench::Bench;
use recording_lines::Recording;
use script::answer::LineAnswer;
use script::commands::Command;
use script::faults::Fault;
use script::memory::Memory;

mod drawing;

// What a line finds and leaves.
#[derive(Clone, Copy)]
pub struct State {
    pub bench: Bench,
    pub recording: Recording,
}

impl State {
    // Does what a line asks for.
    pub fn call<'a>(
        &mut self,
        command: Command<'a>,
        m: &mut Memory,
    ) -> Result<LineAnswer, Fault<'a>>
        ensures state { OnErr result (self.new ≡ self.old) }
        ensures memory { OnErr result (contents self.old.recording m.new ≡ contents self.old.recording m.old) }
    {
        match command {
            Command::Nothing => Ok(LineAnswer::Nothing),
            Command::Setting(call) => setting_lines::call(call, &mut self.bench),
            Command::Draw { n, m: entries } => self.draw(n, entries, m),
            Command::Recording(call) => self.recording.call(call, m),
            Command::Code(call) => Ok(code_lines::call(call)?),
            Command::Whole(code) => Ok(code_lines::whole::code(code, m)?),
            Command::Brief => {
                self.recording.brief = true;
                Ok(LineAnswer::Done)
            }
            Command::Full => {
                self.recording.brief = false;
                Ok(LineAnswer::Done)
            }
            Command::Refusals => Ok(LineAnswer::Refusals),
            Command::Help => Ok(LineAnswer::Help),
        }
    }
}
