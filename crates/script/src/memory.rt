// The numbers that the lines of a script are about.
ghost use Rattle.std.specs.Prelude.{◌≡◌, ◌<◌, ◌≤◌, ◌-◌, ◌↔◌, IsSome, IfSome, set, take, drop};
ghost use Rattle.complex.specs.Buffers.{value};
ghost use Rattle.script.specs.Room.{fit};

use complex::Complex;
use std::ops::Range;

// How many chips a recording holds.
pub const CHIPS: usize = 38400;

// Past the chips of a full recording there is room for those of one line, at most 16,384: they are put there first,
// and counted once it is known that they fit.
pub const RECORDING: usize = 54784;

// The most readings that a read gives.
pub const READINGS: usize = 1104;

// The most chips that a code has.
pub const CODE: usize = 256;

// A line has at most two bits for each reading.
pub const BITS: usize = 2208;

// Re and im components in arrays of their own, as the analyser takes them.
#[derive(Clone, Copy)]
pub struct Values<const N: usize> {
    pub re: [i32; N],
    pub im: [i32; N],
}

impl<const N: usize> Values<N> {
    pub fn zero() -> Values<N> {
        Values {
            re: [0; N],
            im: [0; N],
        }
    }

    pub fn get(&self, i: usize) -> Option<Complex>
        ensures some { IsSome result ↔ (i < N) }
        ensures value { IfSome result (λ z. z ≡ value self.now.re self.now.im i) }
    {
        Some(Complex {
            re: *self.re.get(i)?,
            im: *self.im.get(i)?,
        })
    }

    // Sets the value at place i, where there is such a place.
    pub fn set(&mut self, i: usize, z: Complex)
        ensures re { self.new.re ≡ set self.old.re i z.re }
        ensures im { self.new.im ≡ set self.old.im i z.im }
    {
        if i < N {
            self.re[i] = z.re;
            self.im[i] = z.im;
        }
    }

    // The re and im components of a range of places, where there are all of these.
    pub fn range(&self, places: Range<usize>) -> Option<(&[i32], &[i32])>
        ensures some { IsSome result ↔ ((places.start ≤ places.end) × (places.end ≤ N)) }
        ensures re { IfSome result (λ p. p.0.now ≡ take (places.end - places.start) (drop places.start self.now.re)) }
        ensures im { IfSome result (λ p. p.1.now ≡ take (places.end - places.start) (drop places.start self.now.im)) }
    {
        let (from, to) = (places.start, places.end);
        Some((self.re.get(from..to)?, self.im.get(from..to)?))
    }
}

// No heap: it stands on the stack of the run, which lends it to each line.
#[derive(Clone, Copy)]
pub struct Memory {
    pub recording: Values<RECORDING>,
    // What the last accepted read gave.
    pub readings: Values<READINGS>,
    // The whole code that a line tells.
    pub code: Values<CODE>,
    // The hard bits that a line tells.
    pub bits: [u8; BITS],
}

impl Memory {
    pub fn zero() -> Memory {
        Memory {
            recording: Values::zero(),
            readings: Values::zero(),
            code: Values::zero(),
            bits: [0; BITS],
        }
    }
}

// Whether so many more chips fit into a recording.
pub fn fits(chips: usize, count: usize) -> bool
    ensures { result ≡ fit chips count }
{
    count <= CHIPS && chips <= CHIPS - count
}
