// A line as the call that it asks for.
use crate::arguments::Arguments;
use crate::commands::{CodeCall, Command, RecordingCall, SettingCall, WholeCode};
use crate::faults::Fault;
use codes::{CellParameter, CodeGroup};
use text::lines::ROOM;
use text::words::Words;

// A line of ROOM bytes is too long.
pub fn parsed<'a>(line: &'a [u8]) -> Result<Command<'a>, Fault<'a>> {
    if line.len() >= ROOM {
        return Err(Fault::Long);
    }
    let mut words = Words::new(line);
    match words.next() {
        None => Ok(Command::Nothing),
        Some(name) => call(name, Arguments::new(words)),
    }
}

// The call with this name.
fn call<'a>(name: &'a [u8], mut words: Arguments<'a>) -> Result<Command<'a>, Fault<'a>> {
    let command = match name {
        // What follows these in the line is read where they are answered.
        b"load-plan" => {
            return Ok(Command::Setting(SettingCall::LoadPlan { records: words }));
        }
        b"load-bits" => return load_bits(words),
        b"record" => {
            return Ok(Command::Recording(RecordingCall::Record { chips: words }));
        }
        b"draw" => draw(&mut words)?,
        b"brief" => Command::Brief,
        b"full" => Command::Full,
        b"refusals" => Command::Refusals,
        b"help" => Command::Help,
        _ => numbered(name, &mut words)?,
    };
    words.end()?;
    Ok(command)
}

fn load_bits<'a>(mut words: Arguments<'a>) -> Result<Command<'a>, Fault<'a>> {
    let q = words.number()?;
    let k = words.number()?;
    let bits = words;
    Ok(Command::Setting(SettingCall::LoadBits { q, k, bits }))
}

// Without a second length that is the first.
fn draw<'a>(words: &mut Arguments<'a>) -> Result<Command<'a>, Fault<'a>> {
    let n = words.number()?;
    let m = words.number_or(n)?;
    Ok(Command::Draw { n, m })
}

// A call that takes numbers alone.
fn numbered<'a>(name: &'a [u8], words: &mut Arguments<'a>) -> Result<Command<'a>, Fault<'a>> {
    if let Some(call) = setting(name, words)? {
        return Ok(Command::Setting(call));
    }
    if let Some(call) = recording(name, words)? {
        return Ok(Command::Recording(call));
    }
    if let Some(call) = code(name, words)? {
        return Ok(Command::Code(call));
    }
    match whole(name, words)? {
        Some(code) => Ok(Command::Whole(code)),
        None => Err(Fault::Unknown(name)),
    }
}

fn setting<'a>(
    name: &'a [u8],
    words: &mut Arguments<'a>,
) -> Result<Option<SettingCall<'a>>, Fault<'a>> {
    Ok(Some(match name {
        b"set-cell" => SettingCall::SetCell {
            cell: words.cell()?,
            kind: words.number()?,
        },
        b"open" => SettingCall::Open {
            q: words.number()?,
            k: words.number()?,
            gain: words.number()?,
        },
        b"close" => SettingCall::Close {
            q: words.number()?,
            k: words.number()?,
        },
        b"set-gain" => SettingCall::SetGain {
            q: words.number()?,
            k: words.number()?,
            gain: words.number()?,
        },
        b"set-sync" => SettingCall::SetSync {
            case: words.number()?,
            frame: words.number()?,
            half: words.number()?,
            gp: words.number()?,
            gs: words.number()?,
        },
        b"clear-sync" => SettingCall::ClearSync,
        b"settings" => SettingCall::Settings,
        b"start" => SettingCall::Start,
        _ => return Ok(None),
    }))
}

fn recording<'a>(
    name: &'a [u8],
    words: &mut Arguments<'a>,
) -> Result<Option<RecordingCall<'a>>, Fault<'a>> {
    Ok(Some(match name {
        b"silence" => RecordingCall::Silence {
            count: words.number()?,
        },
        b"noise" => RecordingCall::Noise {
            part: words.part()?,
            seed: words.number()?,
            size: words.number()?,
        },
        b"erase" => RecordingCall::Erase,
        b"show" => RecordingCall::Show {
            part: words.part()?,
        },
        b"read" => RecordingCall::Read {
            cell: words.cell()?,
            q: words.number()?,
            k: words.number()?,
            part: words.part()?,
        },
        b"harden" => RecordingCall::Harden,
        b"read-sync" => RecordingCall::ReadSync {
            case: words.number()?,
            part: words.part()?,
        },
        b"find" => RecordingCall::Find {
            part: words.part()?,
        },
        _ => return Ok(None),
    }))
}

fn code<'a>(name: &[u8], words: &mut Arguments<'a>) -> Result<Option<CodeCall>, Fault<'a>> {
    Ok(Some(match name {
        b"element" => CodeCall::Element {
            q: words.number()?,
            k: words.number()?,
            chip: words.number()?,
        },
        b"related" => CodeCall::Related {
            q1: words.number()?,
            k1: words.number()?,
            q2: words.number()?,
            k2: words.number()?,
        },
        b"code-group" => CodeCall::CodeGroup {
            cell: words.cell()?,
        },
        b"scrambling-chip" => CodeCall::ScramblingChip {
            cell: words.cell()?,
            chip: words.number()?,
        },
        b"primary-chip" => CodeCall::PrimaryChip {
            chip: words.number()?,
        },
        b"secondary-chip" => CodeCall::SecondaryChip {
            number: words.number()?,
            chip: words.number()?,
        },
        b"allocation" => CodeCall::Allocation {
            case: words.number()?,
            group: CodeGroup(words.number()?),
            frame: words.number()?,
            half: words.number()?,
        },
        b"burst-start" => CodeCall::BurstStart {
            group: CodeGroup(words.number()?),
        },
        _ => return Ok(None),
    }))
}

fn whole<'a>(name: &[u8], words: &mut Arguments<'a>) -> Result<Option<WholeCode>, Fault<'a>> {
    Ok(Some(match name {
        b"code" => WholeCode::Code {
            q: words.number()?,
            k: words.number()?,
        },
        b"scrambling" => WholeCode::Scrambling {
            cell: words.cell()?,
        },
        b"primary" => WholeCode::Primary,
        b"secondary" => WholeCode::Secondary {
            number: words.number()?,
        },
        _ => return Ok(None),
    }))
}
