// The bench of document 01: settings and the slot under way. It goes by value: a call takes the bench and hands back its answer and the
// new bench. Each call takes any numbers and any bench; where it refuses, it answers document 01's refusal
// and hands back the bench that it was given.
#![tactic(auto)]

ghost use Rattle.std.specs.Prelude.{◌≡◌, length, take};
ghost use Rattle.complex.specs.Buffers.{written};
ghost use Rattle.codes.specs.Answers.{answer_of};
ghost use Rattle.codes.specs.Refusals.{after, outcome};
ghost use Rattle.bench.specs.Changes.{no_sync, with_gains, with_pairs, with_settings};
ghost use Rattle.bench.specs.BenchCalls.{close_call, clear_sync_call, draw_outcome, draw_call, fresh, left_by, load_bits_call, load_plan_call, open_call, plan_left_by, plan_outcome, set_cell_call, set_gain_call, set_sync_call, start_call, answer_of_plan};

use codes::CellParameter;
use codes::refusal::Refusal;
use slot::{Settings, Sync, field};
use tables::gains::with_gain;
use tables::pairs::{clear_open, set_bits};

mod plan;
mod refusals;

// `settings` are what the calls change. While `running` is not 0 a slot is under way: `sending` is the copy of the settings made at its
// start, and `position` is how many of its chips are out. The flag is a number, since C has this struct.
#[repr(C)]
#[derive(Clone, Copy)]
pub struct Bench {
    pub settings: Settings,
    pub running: u8,
    pub sending: Settings,
    pub position: usize,
}

// What a call answered, and the bench that it hands back.
#[derive(Clone, Copy)]
pub struct Answered<T, E> {
    pub answer: Result<T, E>,
    pub bench: Bench,
}

// A record of a plan: code (q, k) with its gain.
#[repr(C)]
#[derive(Clone, Copy)]
pub struct Channel {
    pub q: u32,
    pub k: u32,
    pub gain: u32,
}

// Why a plan is refused, and the place of the record that failed, from 0.
#[derive(Clone, Copy, Debug, PartialEq, Eq)]
pub struct PlanRefusal {
    pub refusal: Refusal,
    pub place: usize,
}

// The records of a plan by value. At most 16 codes can be open together, so in a longer plan one of the first 17 records fails.
#[repr(C)]
#[derive(Clone, Copy)]
pub struct PlanRecords {
    pub records: [Channel; 17],
}

// No sync burst. `on` is a number, since C has this struct.
const NO_SYNC: Sync = Sync {
    on: 0,
    case: 0,
    frame: 0,
    half: 0,
    gp: 0,
    gs: 0,
};

// Each of the ten calls takes the bench with `mut self`, the form that document 01 names, also where nothing is assigned to it. A call that changes
// tables has one way out, with or without its change, and lays them back as they were where it is refused: two ways, each with a bench, would be a
// copy more. (Set cell and set sync return early.)
impl Bench {
    // Parameter 0, type 1, nothing open, no sync, no slot.
    pub fn fresh() -> Bench
        ensures { result ≡ fresh }
    {
        let settings = Settings {
            cell: CellParameter(0),
            kind: 1,
            gains: [0; 31],
            pairs: [0; 2208],
            sync: NO_SYNC,
        };
        Bench {
            settings,
            running: 0,
            sending: settings,
            position: 0,
        }
    }

    // Closes every code and clears sync. Refuses 1 parameter above 127; 2 type not 1, 2, 3.
    pub fn set_cell(mut self, cell: CellParameter, kind: u32) -> Answered<(), Refusal>
        ensures answer { answer_of result.answer ≡ outcome (set_cell_call self cell kind) }
        ensures bench { result.bench ≡ left_by (set_cell_call self cell kind) self }
    {
        let checked = refusals::set_cell(cell, kind);
        if checked.is_err() {
            return Answered {
                answer: checked,
                bench: self,
            };
        }
        let mut s = self.settings;
        s.cell = cell;
        s.kind = kind;
        s.gains = [0; 31];
        s.sync = NO_SYNC;
        self.settings = s;
        Answered {
            answer: Ok(()),
            bench: self,
        }
    }

    // With these gains and pairs. The type is stored again so that the settings are moved part by part and not as a whole: a part that is a number
    // keeps the compiler from a copy of them on the stack.
    fn with_tables(mut self, gains: [u16; 31], pairs: [u8; 2208]) -> Bench
        ensures { result ≡ with_settings self (with_pairs (with_gains self.settings gains) pairs) }
    {
        let mut s = self.settings;
        let kind = s.kind;
        s.kind = kind;
        s.gains = gains;
        s.pairs = pairs;
        self.settings = s;
        self
    }

    // Opens code (q, k) with bits all 0. Refuses 3 bad q; 4 k not below q; 5 gain not 1 to 4095; 6 related to an open code.
    pub fn open(mut self, q: u32, k: u32, gain: u32) -> Answered<(), Refusal>
        ensures answer { answer_of result.answer ≡ outcome (open_call self q k gain) }
        ensures bench { result.bench ≡ left_by (open_call self q k gain) self }
    {
        let s = self.settings;
        let mut gains = s.gains;
        let mut pairs = s.pairs;
        let checked = refusals::open(&gains, q, k, gain);
        if let Ok(code) = checked {
            gains = with_gain(gains, code, gain as u16);
            // The gains of a bench that has this code alone.
            let alone = with_gain([0; 31], code, 1);
            clear_open(&mut pairs, &alone);
        }
        let bench = self.with_tables(gains, pairs);
        Answered {
            answer: checked.map(|_| ()),
            bench,
        }
    }

    // Replaces all open codes by those of the plan, with bits all 0, or changes nothing. Refuses 3, 4, 5, 6 as open would for the first
    // record that fails, taken in order against earlier records only, with that record's place.
    pub fn load_plan(mut self, plan: &[Channel]) -> Answered<(), PlanRefusal>
        ensures answer { answer_of_plan result.answer ≡ plan_outcome (load_plan_call self plan.now) }
        ensures bench { result.bench ≡ plan_left_by (load_plan_call self plan.now) self }
    {
        let s = self.settings;
        let mut gains = s.gains;
        let mut pairs = s.pairs;
        let opened = plan::gains_of(plan);
        if let Ok(new) = opened {
            gains = new;
            clear_open(&mut pairs, &gains);
        }
        let bench = self.with_tables(gains, pairs);
        Answered {
            answer: opened.map(|_| ()),
            bench,
        }
    }

    // Load plan for callers that hold the records by value, as C does: of the first `count`, or of all 17 where `count` is larger.
    pub fn load_records(self, plan: PlanRecords, count: usize) -> Answered<(), PlanRefusal>
        ensures answer { answer_of_plan result.answer ≡ plan_outcome (load_plan_call self (take count plan.records)) }
        ensures bench { result.bench ≡ plan_left_by (load_plan_call self (take count plan.records)) self }
    {
        let records = plan.records;
        self.load_plan(&records[..count.min(17)])
    }

    // Refuses 3; 4; 7 code not open.
    pub fn close(mut self, q: u32, k: u32) -> Answered<(), Refusal>
        ensures answer { answer_of result.answer ≡ outcome (close_call self q k) }
        ensures bench { result.bench ≡ left_by (close_call self q k) self }
    {
        let s = self.settings;
        let mut gains = s.gains;
        let checked = refusals::close(&gains, q, k);
        if let Ok(code) = checked {
            gains = with_gain(gains, code, 0);
        }
        let pairs = s.pairs;
        Answered {
            answer: checked.map(|_| ()),
            bench: self.with_tables(gains, pairs),
        }
    }

    // Keeps the bits. Refuses 3; 4; 5; 7.
    pub fn set_gain(mut self, q: u32, k: u32, gain: u32) -> Answered<(), Refusal>
        ensures answer { answer_of result.answer ≡ outcome (set_gain_call self q k gain) }
        ensures bench { result.bench ≡ left_by (set_gain_call self q k gain) self }
    {
        let s = self.settings;
        let mut gains = s.gains;
        let checked = refusals::set_gain(&gains, q, k, gain);
        if let Ok(code) = checked {
            gains = with_gain(gains, code, gain as u16);
        }
        let kept = s.pairs;
        Answered {
            answer: checked.map(|_| ()),
            bench: self.with_tables(gains, kept),
        }
    }

    // One byte a bit. Refuses 3; 4; 7; 8 count not 2(F1+F2)/q, F1 and F2 being the field lengths; 9 a byte above 1.
    pub fn load_bits(mut self, q: u32, k: u32, bits: &[u8]) -> Answered<(), Refusal>
        ensures answer { answer_of result.answer ≡ outcome (load_bits_call self q k bits.now) }
        ensures bench { result.bench ≡ left_by (load_bits_call self q k bits.now) self }
    {
        let s = self.settings;
        let gains = s.gains;
        let mut pairs = s.pairs;
        let checked = refusals::load_bits(&gains, s.kind, q, k, bits);
        // Nothing is written before every test has passed.
        if let Ok(code) = checked {
            set_bits(&mut pairs, code, bits);
        }
        Answered {
            answer: checked.map(|_| ()),
            bench: self.with_tables(gains, pairs),
        }
    }

    // The group is the cell's. Refuses 13 type not 1; 14 case not 1 or 2; 15 frame not 1 or 2, half above 1, or half 1 in case 1; 5 either gain.
    pub fn set_sync(
        mut self,
        case: u32,
        frame: u32,
        half: u32,
        gp: u32,
        gs: u32,
    ) -> Answered<(), Refusal>
        ensures answer { answer_of result.answer ≡ outcome (set_sync_call self case frame half gp gs) }
        ensures bench { result.bench ≡ left_by (set_sync_call self case frame half gp gs) self }
    {
        let mut s = self.settings;
        let checked = refusals::set_sync(s, case, frame, half, gp, gs);
        if checked.is_err() {
            return Answered {
                answer: checked,
                bench: self,
            };
        }
        s.sync = Sync {
            on: 1,
            case,
            frame,
            half,
            gp: gp as u16,
            gs: gs as u16,
        };
        self.settings = s;
        Answered {
            answer: Ok(()),
            bench: self,
        }
    }

    // Refuses nothing.
    pub fn clear_sync(mut self) -> Answered<(), Refusal>
        ensures answer { answer_of result.answer ≡ outcome (clear_sync_call self) }
        ensures bench { result.bench ≡ left_by (clear_sync_call self) self }
    {
        let mut quiet = self.settings;
        quiet.sync = NO_SYNC;
        self.settings = quiet;
        Answered {
            answer: Ok(()),
            bench: self,
        }
    }

    // Copies the settings: the slot that starts keeps them, whatever calls follow. Refuses 10 slot under way.
    pub fn start(mut self) -> Answered<(), Refusal>
        ensures answer { answer_of result.answer ≡ outcome (start_call self) }
        ensures bench { result.bench ≡ left_by (start_call self) self }
    {
        let checked = refusals::start(self.running);
        if checked.is_ok() {
            self.sending = self.settings;
            self.running = 1;
            self.position = 0;
        }
        Answered {
            answer: checked,
            bench: self,
        }
    }

    // Writes the next chips of the slot under way, as many as the smaller of buffer length and chips left, and answers that count; later
    // entries stay, and after the last chip there is no slot. Refuses 11 no slot under way; 12 buffer lengths differ.
    pub fn draw(mut self, re: &mut [i32], im: &mut [i32]) -> Answered<usize, Refusal>
        ensures answer { answer_of result.answer ≡ draw_outcome (draw_call self (length re.old) (length im.old)) }
        ensures bench { result.bench ≡ after (draw_call self (length re.old) (length im.old)) self (λ d. d.bench) }
        ensures real { re.new ≡ after (draw_call self (length re.old) (length im.old)) re.old (λ d. written d.chips.re re.old) }
        ensures imaginary { im.new ≡ after (draw_call self (length re.old) (length im.old)) im.old (λ d. written d.chips.im im.old) }
    {
        let checked = refusals::draw(self.running, re.len(), im.len());
        let mut n: usize = 0;
        // Nothing is written before both tests have passed.
        if checked.is_ok() {
            let s = self.sending;
            let from = self.position;
            n = re.len().min(2560usize.saturating_sub(from));
            field::write(&s, from, &mut re[..n], &mut im[..n]);
            self.position = from + n;
            if 2560 <= from + n {
                self.running = 0;
            }
        }
        Answered {
            answer: checked.map(|_| n),
            bench: self,
        }
    }
}
