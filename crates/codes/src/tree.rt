// The tree of channelisation codes.
ghost use Rattle.std.specs.Prelude.{◌≡◌, ℕ, true, ◌<◌, get_or};
ghost use Rattle.codes.specs.Tree.{element, is_spreading_factor, related, width};
ghost use Rattle.codes.specs.Refusals.{◌otherwise◌};
ghost use Rattle.codes.specs.PackedSigns.{leaf_rows};

use crate::refusal::Refusal;
use crate::signs::sign_at;

// A channelisation code: spreading factor q, which is 1, 2, 4, 8 or 16, and an index k below it.
#[derive(Clone, Copy)]
pub struct Code {
    pub q: u32,
    pub k: u32,
    ghost factor: { is_spreading_factor q ≡ true },
    ghost below: { k < q },
}

impl Code {
    ghost use Rattle.codes.specs.Answers.{answer_by};
    ghost use Rattle.codes.specs.CodeRefusals.{code_refusals};

    // Refuses 3 bad q; 4 k not below q.
    pub fn new(q: u32, k: u32) -> Result<Code, Refusal>
        ensures { answer_by {B = ℕ × ℕ} (λ c. (c.q, c.k)) result ≡ code_refusals q k otherwise (q, k) }
    {
        if width(q) == 0 {
            return Err(Refusal::SpreadingFactor);
        }
        if q <= k {
            return Err(Refusal::CodeIndex);
        }
        Ok(Code { q, k })
    }

    // Element n, from 0: 1 or -1; 0 past the code's end.
    pub fn sign(self, n: u32) -> i32
        ensures { result ≡ element self.q self.k n }
    {
        code_sign(self.q, self.k, n)
    }

    // Whether the two are equal or one lies above the other in the tree.
    pub fn is_related_to(self, other: Code) -> bool
        ensures { result ≡ related self.q self.k other.q other.k }
    {
        is_related(self.q, self.k, other.q, other.k)
    }
}

// How many of the sixteen codes of Q 16 lie below a code of spreading factor q: 16/q, or 0 where q is no factor: docs/DECISIONS.md names
// this answer.
pub fn width(q: u32) -> u32
    ensures { result ≡ width q }
{
    match q {
        1 => 16,
        2 => 8,
        4 => 4,
        8 => 2,
        16 => 1,
        _ => 0,
    }
}

// Code (16, x) as a row of signs.
fn leaf(x: u32) -> u32
    ensures { result ≡ get_or leaf_rows x 0 }
{
    match x {
        0 => 0b1111111111111111,
        1 => 0b1111111100000000,
        2 => 0b1111000011110000,
        3 => 0b1111000000001111,
        4 => 0b1100110011001100,
        5 => 0b1100110000110011,
        6 => 0b1100001111000011,
        7 => 0b1100001100111100,
        8 => 0b1010101010101010,
        9 => 0b1010101001010101,
        10 => 0b1010010110100101,
        11 => 0b1010010101011010,
        12 => 0b1001100110011001,
        13 => 0b1001100101100110,
        14 => 0b1001011010010110,
        15 => 0b1001011001101001,
        _ => 0,
    }
}

// Element n, from 0, of code (q, k): 1 or -1; 0 where there is no such code and past its end. Two numbers and no `Code`, here and in `is_related`:
// docs/DECISIONS.md names what these answer for numbers that are no code.
// Code (q, k) is how code (16, k 16/q) begins, since each code stands twice in the first of the two below it.
#[tactic(auto, using(crate::proofs::Leaves::elements))]
pub fn code_sign(q: u32, k: u32, n: u32) -> i32
    ensures { result ≡ element q k n }
{
    let w = width(q);
    if w == 0 || q <= k || q <= n {
        return 0;
    }
    sign_at(leaf(k * w), n)
}

// Whether codes (q1, k1) and (q2, k2) are related, that is, whether the intervals of leaves below them overlap.
#[tactic(auto, unfolding(crate::specs::Tree::overlap), using(crate::proofs::Leaves::relations))]
pub fn is_related(q1: u32, k1: u32, q2: u32, k2: u32) -> bool
    ensures { result ≡ related q1 k1 q2 k2 }
{
    if q1 <= k1 || q2 <= k2 {
        return false;
    }
    let w1 = width(q1);
    let w2 = width(q2);
    let from1 = k1 * w1;
    let to1 = from1 + w1;
    let from2 = k2 * w2;
    let to2 = from2 + w2;
    from1 < to2 && from2 < to1
}
