// A line's answer as text.
#![tactic(auto)]

use bench::Bench;
use codes::ModulatedCode;
use script::answer::LineAnswer;
use script::faults::Fault;
use script::forms::FORMS;
use script::memory::Memory;
use sentences::{Context, faults, refusals};
use std::fmt;
use std::io::{self, Write};
use text::answers::Answers;

mod lists;
mod settings;

// Writes the answer of a line, or why it is not done. The bench is for the settings, the memory has the values of long lines.
pub fn print(
    out: &mut Answers,
    answer: Result<LineAnswer, Fault<'_>>,
    c: &Context<'_>,
    b: &Bench,
    m: &Memory,
) -> io::Result<()> {
    match answer {
        Ok(answer) => done(out, answer, c, b, m),
        Err(fault) => {
            faults::print(out, fault, c)?;
            out.byte(b'\n')
        }
    }
}

fn done(
    out: &mut Answers,
    answer: LineAnswer,
    c: &Context<'_>,
    b: &Bench,
    m: &Memory,
) -> io::Result<()> {
    match answer {
        LineAnswer::Nothing => Ok(()),
        LineAnswer::Done => writeln!(out, "ok"),
        LineAnswer::Counted(count) => writeln!(out, "ok {count}"),
        LineAnswer::Is(true) => writeln!(out, "yes"),
        LineAnswer::Is(false) => writeln!(out, "no"),
        LineAnswer::Number(x) => writeln!(out, "{x}"),
        LineAnswer::Sign(x) => writeln!(out, "{x}"),
        LineAnswer::Chip(z) => writeln!(out, "{},{}", z.re, z.im),
        LineAnswer::Allocation(a) => {
            writeln!(
                out,
                "{} {} {}",
                Sent(a.first),
                Sent(a.second),
                Sent(a.marker)
            )
        }
        LineAnswer::Burst { group, frame, half } => {
            writeln!(out, "ok group {} frame {frame} half {half}", group.0)
        }
        LineAnswer::Peak { start, size } => writeln!(out, "ok at {start} size {size}"),
        LineAnswer::Chips { from, count } => {
            lists::chips(out, &m.recording, from..from.saturating_add(count), c.brief)
        }
        LineAnswer::Code(count) => lists::chips(out, &m.code, 0..count, c.brief),
        LineAnswer::Elements(count) => lists::elements(out, &m.code.re, count),
        LineAnswer::Readings(count) => {
            writeln!(out, "ok {count}")?;
            lists::chips(out, &m.readings, 0..count, c.brief)
        }
        LineAnswer::Bits(count) => {
            writeln!(out, "ok {count}")?;
            lists::bits(out, m.bits.get(..count).unwrap_or(&[]), c.brief)
        }
        LineAnswer::Settings => settings::print(out, b),
        LineAnswer::Refusals => out.write_all(refusals::TABLE.as_bytes()),
        LineAnswer::Help => out.write_all(FORMS.as_bytes()),
    }
}

// Prints a sync code with its unit, as in -jC13.
#[derive(Clone, Copy)]
struct Sent(ModulatedCode);

impl fmt::Display for Sent {
    fn fmt<W: fmt::Write>(&self, f: &mut fmt::Formatter<W>) -> fmt::Result {
        let unit = match (self.0.unit.re, self.0.unit.im) {
            (_, 1) => "j",
            (-1, _) => "-",
            (_, -1) => "-j",
            _ => "",
        };
        write!(f, "{unit}C{}", self.0.code)
    }
}
