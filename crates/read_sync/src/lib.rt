// The analyser's call read sync: what a sync burst was sent for. It takes any case and any buffers, writes to
// none, and refuses by document 01's number.
#![tactic(auto)]

ghost use Rattle.std.specs.Prelude.{◌≡◌};
ghost use Rattle.codes.specs.Answers.{answer_of};
ghost use Rattle.read_sync.specs.SyncReading.{read_sync_call};

use case::Case;
use codes::CodeGroup;
use codes::refusal::Refusal;
use sync_reading::Chips;

mod case;
mod sums;
mod sync_reading;

// What a sync burst was sent for: the code group, the frame, 1 or 2, and the half, 0 for slot k and 1 for slot k+8.
#[derive(Clone, Copy)]
pub struct Candidate {
    pub group: CodeGroup,
    pub frame: u32,
    pub half: u32,
}

// What the sync burst in 256 chips was sent for in a case, 1 or 2.
// Refuses 14 case not 1 or 2; 12 re and im differ in length; 16 length not 256; 17 a component outside -100000 to 100000;
// 19 where no candidate beats all others.
pub fn read_sync(case: u32, re: &[i32], im: &[i32]) -> Result<Candidate, Refusal>
    ensures { answer_of result ≡ read_sync_call case re.now im.now }
{
    let case = Case::new(case)?;
    let leader = Chips::new(re, im)?.leader(case);
    if leader.alone {
        Ok(case.candidate(leader.at))
    } else {
        Err(Refusal::NoBestFit)
    }
}
