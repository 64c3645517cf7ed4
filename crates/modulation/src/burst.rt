// The sync burst by its parts of sixteen chips.
ghost use Rattle.std.specs.Prelude.{◌≡◌, ◌+◌, ◌*◌, ◌<◌, pos, ◌+ℤ◌, get_or};
ghost use Rattle.complex.specs.Arithmetic.{◌+j◌, real, 𝟎, ◌⊗◌};
ghost use Rattle.complex.specs.Buffers.{block_of, listed};
ghost use Rattle.complex.specs.Fits.{Both, Bound, Within};
ghost use Rattle.codes.specs.Burst.{burst};
ghost use Rattle.modulation.specs.SixteenChips.{modulated_part as modulated_part_of, modulated_parts as modulated_parts_of, part_chip as part_chip_of};

use codes::signs::sign_at;
use codes::{Allocated, CodeGroup, ModulatedCode, burst, sync};
use complex::{Block, Complex};
use std::array;

// The unit of a modulated code with the sign of the code's part m.
fn modulated_part(c: ModulatedCode, m: u32) -> Complex
    requires { Both 1 c.unit }
    ensures { result ≡ modulated_part_of c m }
{
    let sign = sign_at(sync::secondary_row(c.code), m);
    Complex {
        re: sign * c.unit.re,
        im: sign * c.unit.im,
    }
}

// What part m of the three codes adds up to, as a multiple of (1 + j) b.
fn modulated_parts(s: Allocated, m: u32) -> Complex
    requires { Both 1 s.first.unit × Both 1 s.second.unit × Both 1 s.marker.unit }
    ensures { result ≡ modulated_parts_of s m }
{
    modulated_part(s.first, m)
        .plus(modulated_part(s.second, m))
        .plus(modulated_part(s.marker, m))
}

// (1 + j) t times a gain.
fn gained(g: u16, t: Complex) -> Complex
    requires { Both 3 t }
    ensures { result ≡ real (pos g) ⊗ (t ⊗ (pos 1 +j pos 1)) }
{
    let gain = i32::from(g);
    Complex {
        re: gain * (t.re - t.im),
        im: gain * (t.re + t.im),
    }
}

// Chip i of a part: (1 + j) p times a, and s times b.
fn part_chip(p: i32, s: Complex, i: u32) -> Complex
    requires { Within 65535 p × Both 400000 s }
    ensures { result ≡ part_chip_of p s i }
{
    let u = sync::a_sign(i) * p;
    let sign = sync::b_sign(i);
    Complex {
        re: u + sign * s.re,
        im: u + sign * s.im,
    }
}

// Chips 16m to 16m + 15 of the burst of a group. It takes what the definition `burst` takes, one by one, in its order.
pub fn part(case: u32, group: CodeGroup, frame: u32, half: u32, gp: u16, gs: u16, m: u32) -> Block
    requires { m < 16 }
    ensures { result ≡ block_of (λ i. burst case group.0 frame half gp gs (m * 16 + i)) }
{
    let p = sync::a_repeat(m) * i32::from(gp);
    let t = modulated_parts(burst::allocated(case, group, frame, half), m);
    let s = gained(gs, t);
    Block::from_fn(|i| part_chip(p, s, i as u32))
}

// Sixteen chips of 0.
pub fn silence() -> Block
    ensures { result ≡ block_of (λ i. 𝟎) }
{
    Block {
        re: [0i32; 16],
        im: [0i32; 16],
    }
}

// The sums of one component of a block's chips and of a burst's.
pub fn sums(x: &[i32; 16], y: &[i32; 16]) -> [i32; 16]
    requires { Bound 2031585 x.now × Bound 1000000 y.now }
    ensures { result ≡ listed 16 (λ i. get_or x.now i (pos 0) +ℤ get_or y.now i (pos 0)) }
{
    array::from_fn(|i| x[i] + y[i])
}
