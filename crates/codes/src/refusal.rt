// Why a call is refused.
ghost use Rattle.std.specs.Prelude.{◌≡◌};
ghost use Rattle.codes.specs.Answers.{answer_of, number_of};
ghost use Rattle.codes.specs.Refusals.{refusal_of};

// Document 01's refusals, each with its number there.
#[derive(Clone, Copy, Debug, PartialEq, Eq)]
pub enum Refusal {
    // A cell parameter above 127, or a code group above 31.
    CellOrGroup = 1,
    // A burst type that is not 1, 2 or 3.
    BurstType = 2,
    // A spreading factor that is not 1, 2, 4, 8 or 16.
    SpreadingFactor = 3,
    // A code's index that is not below its spreading factor.
    CodeIndex = 4,
    // A gain that is not 1 to 4095.
    Gain = 5,
    // A code that is related to an open one.
    Related = 6,
    // A code that is not open.
    NotOpen = 7,
    // A count of bits that is not 2(F1+F2)/Q.
    BitCount = 8,
    // A bit that is neither 0 nor 1.
    BitValue = 9,
    SlotUnderWay = 10,
    NoSlot = 11,
    // The re and the im buffer differ in length.
    LengthsDiffer = 12,
    // A sync burst where the burst type is not 1.
    BurstTypeNot1 = 13,
    // A case that is not 1 or 2.
    SyncCase = 14,
    // A frame that is not 1 or 2, a half above 1, or half 1 in case 1.
    FrameOrHalf = 15,
    // A length, a chip or a sync code that the call does not take.
    LengthChipOrSyncCode = 16,
    // A component outside -100000 to 100000.
    Component = 17,
    // An answer or scratch buffer that is too short.
    BufferTooShort = 18,
    // No candidate beats all others.
    NoBestFit = 19,
}

impl Refusal {
    // Document 01's number.
    pub fn number(self) -> u32
        ensures { result ≡ number_of self }
    {
        self as u32
    }
}

// The number of the refusal, or 0 where the call is accepted, as a C struct holds it.
pub fn number_or_0<T>(answer: &Result<T, Refusal>) -> u32
    ensures { result ≡ refusal_of (answer_of answer.now) }
{
    match answer {
        Ok(_) => 0,
        Err(r) => r.number(),
    }
}
