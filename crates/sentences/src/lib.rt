// What is told where a line is not done: the words of a fault and of a refusal, and the call that a word is near to.
#![tactic(auto)]

use std::fmt;

pub mod faults;
mod nearest;
pub mod refusals;

// What an answer's words speak of: the line, its number in the script, how many chips the recording had before it, and whether refusals and long lines are told in brief.
#[derive(Clone, Copy)]
pub struct Context<'a> {
    pub at: u64,
    pub line: &'a [u8],
    pub chips: usize,
    pub brief: bool,
}

impl fmt::Display for Context<'_> {
    fn fmt<W: fmt::Write>(&self, f: &mut fmt::Formatter<W>) -> fmt::Result {
        write!(f, "line {}", self.at)
    }
}
