// Sums with signs: of the eight chips in half a part, and of the sixteen parts. The correlations with the sync codes are made of them.
ghost use Rattle.std.specs.Prelude.{◌≡◌, ◌+◌, ◌≤◌, length};
ghost use Rattle.complex.specs.Fits.{Bound};
ghost use Rattle.read_sync.specs.Shares.{sum_with_signs};

use codes::signs::sign_at;

// The sum of N entries of x from `from` on, with the signs of a row from `at` on.
pub fn signed_sum<const N: usize>(x: &[i32], from: usize, row: u32, at: u32) -> i32
    requires { (at + N ≤ 16) × (from + N ≤ length x.now) × Bound 1600000 x.now }
    ensures { result ≡ sum_with_signs N x.now from row at }
{
    let mut s: i32 = 0;
    // An index: a term is an entry and the sign that its place has.
    for i in 0..N {
        let sign = sign_at(row, at + i as u32);
        s += sign * x[from + i];
    }
    s
}
