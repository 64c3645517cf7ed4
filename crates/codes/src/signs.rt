// Rows of 16 signs, held as a binary number: the first sign first, 1 for 1 and 0 for -1.
ghost use Rattle.std.specs.Prelude.{◌≡◌};
ghost use Rattle.codes.specs.PackedSigns.{sign_bit};

// Element i, from 0, of a row; 0 past its end.
#[tactic(auto, unfolding(crate::specs::PackedSigns::sign_bit))]
pub fn sign_at(row: u32, i: u32) -> i32
    ensures { result ≡ sign_bit row i }
{
    if 15 < i {
        return 0;
    }
    if (row >> (15 - i)) % 2 == 0 { -1 } else { 1 }
}
