// Read sync and find in a part of the recording.
use find::Peak;
use read_sync::Candidate;
use script::answer::LineAnswer;
use script::faults::Fault;
use script::memory::Memory;
use std::ops::Range;

pub fn read_sync<'a>(case: u32, places: Range<usize>, m: &Memory) -> Result<LineAnswer, Fault<'a>> {
    let (re, im) = m.recording.range(places).ok_or(Fault::Outside)?;
    let Candidate { group, frame, half } = read_sync::read_sync(case, re, im)?;
    Ok(LineAnswer::Burst { group, frame, half })
}

// Find takes at most 5,120 chips, and 15 entries fewer for each scratch buffer.
pub fn find<'a>(places: Range<usize>, m: &Memory) -> Result<LineAnswer, Fault<'a>> {
    let mut sumre = [0; 5105];
    let mut sumim = [0; 5105];
    let (re, im) = m.recording.range(places).ok_or(Fault::Outside)?;
    let Peak { start, size } = find::find(re, im, &mut sumre, &mut sumim)?;
    Ok(LineAnswer::Peak { start, size })
}
