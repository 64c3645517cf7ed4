// What a line is answered where it is done. The values of a long line stand in the memory.
use codes::{Allocated, CodeGroup};
use complex::Complex;

#[derive(Clone, Copy)]
pub enum LineAnswer {
    // The line has no word.
    Nothing,
    Done,
    Counted(usize),
    Is(bool),
    Number(u32),
    Sign(i32),
    Chip(Complex),
    Allocation(Allocated),
    Burst {
        group: CodeGroup,
        frame: u32,
        half: u32,
    },
    Peak {
        start: usize,
        size: i64,
    },
    // These chips of the recording.
    Chips {
        from: usize,
        count: usize,
    },
    // So many chips of a whole code.
    Code(usize),
    // So many elements of a channelisation code, the re components of the code in the memory.
    Elements(usize),
    Readings(usize),
    Bits(usize),
    // What is set on the bench, and what its slot has left.
    Settings,
    Refusals,
    Help,
}
