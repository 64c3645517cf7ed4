// The two cases of a sync burst.
ghost use Rattle.std.specs.Prelude.{◌≡◌, ◌<◌, [], ◌∷◌, not};
ghost use Rattle.codes.specs.Answers.{answer_by};
ghost use Rattle.codes.specs.Refusals.{◌if◌, ◌otherwise◌};
ghost use Rattle.codes.specs.Allocation.{one_or_two};
ghost use Rattle.read_sync.specs.SyncReading.{candidate as candidate_of};
ghost use Rattle.read_sync.specs.Cases.{case_number, set_count};
ghost use Rattle.read_sync.specs.Leaders.{place_in_row};

use crate::Candidate;
use codes::CodeGroup;
use codes::refusal::Refusal;

#[derive(Clone, Copy)]
pub enum Case {
    One = 1,
    Two = 2,
}

impl Case {
    // Refuses 14 a number that is not 1 or 2.
    #[tactic(auto, unfolding(codes::specs::Allocation::one_or_two))]
    pub fn new(number: u32) -> Result<Case, Refusal>
        ensures { answer_by case_number result ≡ (14 if not (one_or_two number) ∷ []) otherwise number }
    {
        match number {
            1 => Ok(Case::One),
            2 => Ok(Case::Two),
            _ => Err(Refusal::SyncCase),
        }
    }

    // How many code sets it has, of 32 candidates each.
    pub fn sets(self) -> u32
        ensures { result ≡ set_count self }
    {
        match self {
            Case::One => 2,
            Case::Two => 4,
        }
    }

    // Candidate n: group by group, in a group frame by frame, in a frame half by half.
    #[tactic(auto, unfolding(crate::specs::SyncReading::candidate))]
    pub fn candidate(self, n: u32) -> Candidate
        ensures { result ≡ candidate_of (case_number self) n }
    {
        match self {
            Case::One => Candidate {
                group: CodeGroup(n / 2),
                frame: 1 + n % 2,
                half: 0,
            },
            Case::Two => Candidate {
                group: CodeGroup(n / 4),
                frame: 1 + n / 2 % 2,
                half: n % 2,
            },
        }
    }

    // Which candidate of its row has the signs k: 4 where the first of the pair is negative, 2 the second, 1 the marker.
    #[tactic(auto, unfolding(crate::specs::Leaders::place_in_row))]
    pub fn place_in_row(self, k: u32) -> u32
        requires { k < 8 }
        ensures { result ≡ place_in_row (case_number self) k }
    {
        match self {
            Case::One => k,
            Case::Two => (k / 4 + k / 2) % 2 * 4 + k / 4 * 2 + k % 2,
        }
    }
}
