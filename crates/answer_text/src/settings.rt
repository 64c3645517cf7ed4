// The lines of the settings.
use bench::Bench;
use slot::Sync;
use std::io::{Result, Write};
use text::answers::Answers;

// Writes what is set on the bench, and what its slot has left.
pub fn print(out: &mut Answers, b: &Bench) -> Result<()> {
    let s = &b.settings;
    let group = codes::code_group(s.cell).map_or(0, |group| group.0);
    writeln!(out, "cell {} group {group} type {}", s.cell.0, s.kind)?;
    open_codes(out, &s.gains)?;
    sync(out, s.sync)?;
    if b.running == 0 {
        return writeln!(out, "no slot under way");
    }
    let left = 2560usize.saturating_sub(b.position);
    writeln!(out, "slot under way, {left} of 2560 chips left")
}

// Factor, index and gain of each open code, by factor and then by index.
fn open_codes(out: &mut Answers, gains: &[u16; 31]) -> Result<()> {
    if gains.iter().all(|gain| *gain == 0) {
        return writeln!(out, "no code is open");
    }
    let mut rest = gains.iter();
    for q in [1u32, 2, 4, 8, 16] {
        for (k, gain) in (0..q).zip(rest.by_ref()) {
            if *gain != 0 {
                writeln!(out, "code ({q}, {k}) gain {gain}")?;
            }
        }
    }
    Ok(())
}

fn sync(out: &mut Answers, s: Sync) -> Result<()> {
    if s.on == 0 {
        return writeln!(out, "no sync");
    }
    writeln!(
        out,
        "sync case {} frame {} half {} gains {} {}",
        s.case, s.frame, s.half, s.gp, s.gs
    )
}
