// Readings of a part of the recording, and their hard bits.
ghost use Rattle.std.specs.Prelude.{◌≡◌, OnErr};

use codes::CellParameter;
use script::answer::LineAnswer;
use script::faults::Fault;
use script::memory::Memory;
use std::ops::Range;

// Reads the places of a part with code (q, k), and answers how many readings there are now. Where that is refused, those of before stay.
pub fn read<'a>(
    cell: CellParameter,
    q: u32,
    k: u32,
    places: Range<usize>,
    m: &mut Memory,
) -> Result<usize, Fault<'a>>
    ensures { OnErr result (m.new ≡ m.old) }
{
    let (re, im) = m.recording.range(places).ok_or(Fault::Outside)?;
    read::read(cell, q, k, re, im, &mut m.readings.re, &mut m.readings.im)?;
    Ok(re.len().checked_div(q as usize).unwrap_or(0))
}

// The hard bits of so many readings.
pub fn harden<'a>(readings: usize, m: &mut Memory) -> Result<LineAnswer, Fault<'a>>
    ensures { OnErr result (m.new ≡ m.old) }
{
    if readings == 0 {
        return Err(Fault::NoReadings);
    }
    let (re, im) = m.readings.range(0..readings).ok_or(Fault::NoReadings)?;
    harden::harden(re, im, &mut m.bits)?;
    Ok(LineAnswer::Bits(re.len() * 2))
}
