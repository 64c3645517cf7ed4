// Why a line is not done.
use codes::refusal::Refusal;

// The words that faults quote are those of the line.
#[derive(Clone, Copy)]
pub enum Fault<'a> {
    Unknown(&'a [u8]),
    Missing,
    Extra(&'a [u8]),
    NoNumber(&'a [u8]),
    NoComponent(&'a [u8]),
    NoChip(&'a [u8]),
    NoRecord(&'a [u8]),
    NoBits(&'a [u8]),
    // A noise of this size is too large.
    Loud(u32),
    // A part that goes past the recording's end.
    Outside,
    // So many chips do not fit into the recording.
    Full(usize),
    NoReadings,
    // Noise takes this chip past 32 bits.
    Past(usize),
    Long,
    // The call was made, and refused.
    Refused(Refusal),
    // A plan was refused for the record at this place.
    RefusedAt(Refusal, usize),
}

impl<'a> From<Refusal> for Fault<'a> {
    ghost use Rattle.std.specs.Prelude.{◌≡◌};
    ghost use Rattle.script.specs.declared.faults.Fault.TheVariants.{Refused};

    ghost from_gives = { λ r f. f ≡ Refused r };

    fn from(refusal: Refusal) -> Fault<'a> {
        Fault::Refused(refusal)
    }
}
