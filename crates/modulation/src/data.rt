// The data chips of a block of sixteen, from its sixteen pairs of bits.
ghost use Rattle.std.specs.Prelude.{◌≡◌, cond, ℕ, ℤ, ◌+◌, ◌/◌, ◌%◌, ◌<◌, ◌≤◌, eqb, pos, ◌+ℤ◌, ◌-ℤ◌, ◌*ℤ◌, get_or};
ghost use Rattle.complex.specs.declared.Complex.{Complex};
ghost use Rattle.complex.specs.Buffers.{block_of, listed};
ghost use Rattle.complex.specs.Fits.{Bound, Within};
ghost use Rattle.codes.specs.Tree.{width};
ghost use Rattle.modulation.specs.Symbols.{symbol as symbol_of};
ghost use Rattle.modulation.specs.Levels.{factor};
ghost use Rattle.modulation.specs.Nodes.{node as node_of};
ghost use Rattle.modulation.specs.SixteenChips.{climbed as climbed_of, has_open, with_own, levels_of, raised as raised_of, summed as summed_of, scrambling_signs, scrambled as scrambled_of};

use codes::{CellParameter, scrambling};
use complex::{Block, Complex};
use std::array;

// The symbol of a pair of bits, by the pair's number: a byte of the settings' table, which is a C struct, so that any may stand there.
#[tactic(auto, unfolding(crate::specs::Symbols::symbol))]
fn symbol(pair: u8) -> Complex
    ensures { result ≡ symbol_of pair }
{
    match pair {
        0 => Complex::J,
        1 => Complex::ONE,
        2 => Complex { re: -1, im: 0 },
        3 => Complex { re: 0, im: -1 },
        _ => Complex::ZERO,
    }
}

// One component of the symbols of the sixteen pairs from `from` on, by itself: a block of the symbols takes longer to make.
fn symbols<F: Fn(Complex) -> i32>(pairs: &[u8; 2208], from: usize, component: F) -> [i32; 16]
    requires pairs { from + 16 ≤ 2208 }
    requires component { F.IsAlwaysCallable component }
    ensures { (g : Complex → ℤ) → ((z : Complex) (r : ℤ) → F.post component z r → r ≡ g z) → result ≡ listed 16 (λ i. g (symbol_of (get_or pairs.now (from + i) 0))) }
{
    array::from_fn(|i| component(symbol(pairs[from + i])))
}

// A level of the code tree: the codes of one spreading factor.
#[derive(Clone, Copy)]
enum Level {
    Q1,
    Q2,
    Q4,
    Q8,
    Q16,
}

// Where the gain stands of the level's code that owns entry i of a block.
fn node(level: Level, i: usize) -> usize
    requires { i < 16 }
    ensures { (result ≡ node_of (factor level) (i / width (factor level))) × (result < 31) }
{
    match level {
        Level::Q1 => 0,
        Level::Q2 => 1 + i / 8,
        Level::Q4 => 3 + i / 4,
        Level::Q8 => 7 + i / 2,
        Level::Q16 => 15 + i,
    }
}

// The gain of the level's code that owns entry i of a block.
fn gain_at(gains: &[u16; 31], level: Level, i: usize) -> u16
    requires { i < 16 }
    ensures { result ≡ get_or gains.now (node_of (factor level) (i / width (factor level))) 0 }
{
    gains[node(level, i)]
}

// The sum of entries n and n + h for an even i, their difference for an odd one.
fn sum_or_difference(x: &[i32; 16], n: usize, h: usize, i: usize) -> i32
    requires { (n + h < 16) × Bound 983025 x.now }
    ensures { result ≡ cond (eqb (i % 2) 0) (get_or x.now n (pos 0) +ℤ get_or x.now (n + h) (pos 0)) (get_or x.now n (pos 0) -ℤ get_or x.now (n + h) (pos 0)) }
{
    if i % 2 == 0 {
        x[n] + x[n + h]
    } else {
        x[n] - x[n + h]
    }
}

// Entry i of a level, from the entries x of the level below it in the tree; level 16 has none below.
fn raised_entry(x: &[i32; 16], level: Level, i: usize) -> i32
    requires { (i < 16) × Bound 983025 x.now }
    ensures { result ≡ raised_of x.now (factor level) i }
{
    match level {
        Level::Q1 => sum_or_difference(x, i / 2, 8, i),
        Level::Q2 => sum_or_difference(x, i / 8 * 8 + i % 8 / 2, 4, i),
        Level::Q4 => sum_or_difference(x, i / 4 * 4 + i % 4 / 2, 2, i),
        Level::Q8 => sum_or_difference(x, i / 2 * 2, 1, i),
        Level::Q16 => 0,
    }
}

// x + gain s.
fn plus_gain(x: i32, gain: u16, s: i32) -> i32
    requires { Within 1966050 x × Within 1 s }
    ensures { result ≡ x +ℤ pos gain *ℤ s }
{
    x + i32::from(gain) * s
}

// A round: the entries of a level from those of the level below it.
fn raised(x: &[i32; 16], level: Level) -> [i32; 16]
    requires { Bound 983025 x.now }
    ensures { result ≡ listed 16 (raised_of x.now (factor level)) }
{
    array::from_fn(|i| raised_entry(x, level, i))
}

// The entries x of a level with the gains of its own codes on the symbols s.
fn with_own(gains: &[u16; 31], s: &[i32; 16], x: &[i32; 16], level: Level) -> [i32; 16]
    requires { Bound 1 s.now × Bound 1966050 x.now }
    ensures entries { result ≡ listed 16 (with_own gains.now s.now x.now (factor level)) }
    ensures size { (k : ℕ) → k ≤ 1966050 → Bound k x.now → Bound (k + 65535) result }
{
    array::from_fn(|i| plus_gain(x[i], gain_at(gains, level, i), s[i]))
}

// The entries of a level, from those of the level below it and from its own codes' gains and symbols; where no code of the level is open
// there is nothing to add.
fn climbed(
    gains: &[u16; 31],
    any_open: bool,
    s: &[i32; 16],
    x: &[i32; 16],
    level: Level,
) -> [i32; 16]
    requires { (any_open ≡ has_open gains.now (factor level)) × Bound 1 s.now × Bound 983025 x.now }
    ensures entries { result ≡ listed 16 (climbed_of gains.now s.now x.now (factor level)) }
    ensures size { (k : ℕ) → k ≤ 983025 → Bound k x.now → Bound (k + k + 65535) result }
{
    let mut y = raised(x, level);
    if any_open {
        y = with_own(gains, s, &y, level);
    }
    y
}

// Whether a code of factor q is open.
fn is_any_open(gains: &[u16; 31], q: usize) -> bool
    requires { (0 < q) × (q ≤ 16) }
    ensures { result ≡ has_open gains.now q }
{
    gains[q - 1..2 * q - 1].iter().any(|&gain| gain != 0)
}

// Which levels of the tree have an open code. Each by its name: an array would have the level for its index, and every look at it a test.
#[derive(Clone, Copy)]
pub struct OpenLevels {
    pub q1: bool,
    pub q2: bool,
    pub q4: bool,
    pub q8: bool,
    pub q16: bool,
}

pub fn open_levels(gains: &[u16; 31]) -> OpenLevels
    ensures { result ≡ levels_of gains.now }
{
    OpenLevels {
        q1: is_any_open(gains, 1),
        q2: is_any_open(gains, 2),
        q4: is_any_open(gains, 4),
        q8: is_any_open(gains, 8),
        q16: is_any_open(gains, 16),
    }
}

// One component of the sixteen chips before scrambling, from that component of the sixteen symbols: four rounds of sums and
// differences up the tree, since each code stands in the two below it, once with its second half negated.
fn summed(gains: &[u16; 31], levels: OpenLevels, s: &[i32; 16]) -> [i32; 16]
    requires { (levels ≡ levels_of gains.now) × Bound 1 s.now }
    ensures entries { result ≡ listed 16 (summed_of gains.now s.now) }
    ensures size { Bound 2031585 result }
{
    // Level 16 has none below it: these are not looked at.
    let none = [0i32; 16];
    let x16 = climbed(gains, levels.q16, s, &none, Level::Q16);
    let x8 = climbed(gains, levels.q8, s, &x16, Level::Q8);
    let x4 = climbed(gains, levels.q4, s, &x8, Level::Q4);
    let x2 = climbed(gains, levels.q2, s, &x4, Level::Q2);
    climbed(gains, levels.q1, s, &x2, Level::Q1)
}

// Element `place` of a cell's scrambling code, from 0, times 1 + j: its components are the code's signs, some changed, by a pattern of four places.
fn scrambling_sign(cell: CellParameter, place: u32) -> Complex
    requires { place < 16 }
    ensures { result ≡ scrambling_signs cell.0 place }
{
    let v = scrambling::sign(cell, place);
    Complex {
        re: scrambling::signed_by_j(v, place),
        im: scrambling::signed_by_j(v, place + 3),
    }
}

// A cell's scrambling signs. The elements themselves are imaginary at even places, from 0, and real at odd ones, so each component of a product with
// one is a single product.
pub fn scrambling_signs(cell: CellParameter) -> Block
    ensures { result ≡ block_of (scrambling_signs cell.0) }
{
    Block::from_fn(|i| scrambling_sign(cell, i as u32))
}

// x times a sign or 0: a choice, four at a time in vector code, where products of 32-bit numbers go one by one.
fn signed(s: i32, x: i32) -> i32
    requires { Within 1 s × Within 2031585 x }
    ensures { result ≡ s *ℤ x }
{
    if s < 0 {
        -x
    } else if 0 < s {
        x
    } else {
        0
    }
}

// Entry i of `even` where i is even, else of `odd`, times t's.
fn scrambled_entry(t: &[i32; 16], even: &[i32; 16], odd: &[i32; 16], i: usize) -> i32
    requires { (i < 16) × Bound 1 t.now × Bound 2031585 even.now × Bound 2031585 odd.now }
    ensures { result ≡ scrambled_of t.now even.now odd.now i }
{
    if i % 2 == 0 {
        signed(t[i], even[i])
    } else {
        signed(t[i], odd[i])
    }
}

// One component of sixteen values times the scrambling code, from the code's signs for this component and the values' components that make
// it at even places and at odd ones.
fn scrambled(t: &[i32; 16], even: &[i32; 16], odd: &[i32; 16]) -> [i32; 16]
    requires { Bound 1 t.now × Bound 2031585 even.now × Bound 2031585 odd.now }
    ensures { result ≡ listed 16 (scrambled_of t.now even.now odd.now) }
{
    array::from_fn(|i| scrambled_entry(t, even, odd, i))
}

// What makes a slot's data chips: the gains of the codes, the pairs of bits, and what each block needs of gains and cell.
#[derive(Clone, Copy)]
pub struct Modulator<'a> {
    pub gains: &'a [u16; 31],
    pub pairs: &'a [u8; 2208],
    pub levels: OpenLevels,
    pub signs: Block,
    pub ghost levels_of_gains: { levels ≡ levels_of gains.now },
    pub ghost small_signs: { Bound 1 signs.re × Bound 1 signs.im },
}

impl<'a> Modulator<'a> {
    ghost use Rattle.modulation.specs.Modulated.{modulated_chip};

    // Of a cell, with these tables of its settings.
    pub fn new(cell: CellParameter, gains: &'a [u16; 31], pairs: &'a [u8; 2208]) -> Modulator<'a>
        ensures tables { (result.gains.now ≡ gains.now) × (result.pairs.now ≡ pairs.now) }
        ensures signs { result.signs ≡ block_of (scrambling_signs cell.0) }
    {
        Modulator {
            gains,
            pairs,
            levels: open_levels(gains),
            signs: scrambling_signs(cell),
        }
    }

    // The sixteen chips, before the burst, whose pairs stand from `from` on.
    pub fn block(&self, from: usize) -> Block
        requires { from + 16 ≤ 2208 }
        ensures chips { result ≡ block_of (modulated_chip self.now from) }
        ensures size { Bound 2031585 result.re × Bound 2031585 result.im }
    {
        let sre = symbols(self.pairs, from, |z| z.re);
        let sim = symbols(self.pairs, from, |z| z.im);
        let x = summed(self.gains, self.levels, &sre);
        let y = summed(self.gains, self.levels, &sim);
        Block {
            re: scrambled(&self.signs.re, &y, &x),
            im: scrambled(&self.signs.im, &x, &y),
        }
    }
}
