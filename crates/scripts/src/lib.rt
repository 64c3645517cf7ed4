// A script from its first line to its last.
#![tactic(auto)]

use bench::Bench;
use bench_lines::State;
use recording_lines::Recording;
use script::memory::Memory;
use script::parsing;
use sentences::Context;
use std::io::{Stdout, Write};
use text::answers::Answers;
use text::files::{Failure, Source};
use text::lines::Lines;

// Answers a script with buffers and a memory of its own; a run takes some 750 KB of the stack.
pub fn answer_all(source: Source, to: Stdout) -> Result<(), Failure> {
    let mut lines = Lines::new(source);
    let mut out = Answers::new(to);
    let mut m = Memory::zero();
    let mut state = State {
        bench: Bench::fresh(),
        recording: Recording::default(),
    };
    // A proved loop has to end, and nothing says that the input does: no script has so many lines.
    for at in 1..u64::MAX {
        let Some(line) = lines.next(&mut out)? else {
            break;
        };
        let c = Context {
            at,
            line,
            chips: state.recording.chips,
            brief: state.recording.brief,
        };
        let answer = parsing::parsed(line).and_then(|command| state.call(command, &mut m));
        answer_text::print(&mut out, answer, &c, &state.bench, &m).map_err(Failure::Write)?;
    }
    out.flush().map_err(Failure::Write)
}
