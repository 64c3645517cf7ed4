// What a line asks for: its call with the call's numbers. The calls are parted by what answers them.
ghost use Rattle.std.specs.Prelude.{◌≡◌, ◌+◌, nat_le, if◌then◌else◌, Ok, Err};
ghost use Rattle.script.specs.declared.faults.Fault.TheVariants.{Outside};

use crate::arguments::Arguments;
use crate::faults::Fault;
use codes::{CellParameter, CodeGroup};
use std::ops::Range;

#[derive(Drop)]
pub enum Command<'a> {
    // The line has no word.
    Nothing,
    Setting(SettingCall<'a>),
    // A draw into buffers of n and m entries.
    Draw { n: u32, m: u32 },
    Recording(RecordingCall<'a>),
    Code(CodeCall),
    Whole(WholeCode),
    Brief,
    Full,
    Refusals,
    Help,
}

// The calls that change settings or tell them, and that which starts a slot.
#[derive(Drop)]
pub enum SettingCall<'a> {
    SetCell {
        cell: CellParameter,
        kind: u32,
    },
    Open {
        q: u32,
        k: u32,
        gain: u32,
    },
    LoadPlan {
        records: Arguments<'a>,
    },
    Close {
        q: u32,
        k: u32,
    },
    SetGain {
        q: u32,
        k: u32,
        gain: u32,
    },
    LoadBits {
        q: u32,
        k: u32,
        bits: Arguments<'a>,
    },
    SetSync {
        case: u32,
        frame: u32,
        half: u32,
        gp: u32,
        gs: u32,
    },
    ClearSync,
    Settings,
    Start,
}

// The calls that make a recording and read it.
#[derive(Drop)]
pub enum RecordingCall<'a> {
    Record {
        chips: Arguments<'a>,
    },
    Silence {
        count: u32,
    },
    Noise {
        part: Part,
        seed: u32,
        size: u32,
    },
    Erase,
    Show {
        part: Part,
    },
    Read {
        cell: CellParameter,
        q: u32,
        k: u32,
        part: Part,
    },
    Harden,
    ReadSync {
        case: u32,
        part: Part,
    },
    Find {
        part: Part,
    },
}

// The calls of the code rules.
#[derive(Clone, Copy)]
pub enum CodeCall {
    Element {
        q: u32,
        k: u32,
        chip: u32,
    },
    Related {
        q1: u32,
        k1: u32,
        q2: u32,
        k2: u32,
    },
    CodeGroup {
        cell: CellParameter,
    },
    ScramblingChip {
        cell: CellParameter,
        chip: u32,
    },
    PrimaryChip {
        chip: u32,
    },
    SecondaryChip {
        number: u32,
        chip: u32,
    },
    Allocation {
        case: u32,
        group: CodeGroup,
        frame: u32,
        half: u32,
    },
    BurstStart {
        group: CodeGroup,
    },
}

// The calls that tell a whole code, chip by chip.
#[derive(Clone, Copy)]
pub enum WholeCode {
    Code { q: u32, k: u32 },
    Scrambling { cell: CellParameter },
    Primary,
    Secondary { number: u32 },
}

// COUNT chips from FROM on.
#[derive(Clone, Copy)]
pub struct Part {
    pub from: u32,
    pub count: u32,
}

impl Part {
    // The places of the part in a recording of so many chips.
    pub fn within<'a>(self, chips: usize) -> Result<Range<usize>, Fault<'a>>
        ensures { result ≡ (if nat_le (self.from + self.count) chips then Ok (record { start = self.from; end = self.from + self.count }) else Err Outside) }
    {
        let from = self.from as usize;
        let to = from + self.count as usize;
        if to > chips {
            return Err(Fault::Outside);
        }
        Ok(from..to)
    }
}
