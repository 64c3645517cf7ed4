// The lines of a script: the forms of its calls, what a line asks for, what it is answered, and the numbers that long lines are about.
#![tactic(auto)]

pub mod answer;
pub mod arguments;
pub mod commands;
pub mod faults;
pub mod forms;
pub mod memory;
pub mod noise;
pub mod parsing;
