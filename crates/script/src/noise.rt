// Noise on a part of the recording, from a generator whose rule docs/TDD.md has in full.
ghost use Rattle.std.specs.Prelude.{◌≡◌, ◌+◌, ◌*◌, ◌%◌, min, OnSome, SomeIff, OnOk, OnErr};
ghost use Rattle.complex.specs.Arithmetic.{◌⊕◌};
ghost use Rattle.complex.specs.Fits.{Fits32};
ghost use Rattle.script.specs.Noise.{next_state, noise_number, chip_noise, with_noise};

use crate::commands::Part;
use crate::faults::Fault;
use crate::memory::Memory;
use complex::Complex;
use std::ops::Range;

#[derive(Clone, Copy)]
pub struct Generator {
    pub state: u32,
}

impl Generator {
    pub fn new(seed: u32) -> Generator
        ensures { result.state ≡ seed }
    {
        Generator { state: seed }
    }

    // The generator's next state.
    pub fn next_u32(&mut self) -> u32
        ensures state { self.new.state ≡ (self.old.state * 1664525 + 1013904223) % 4294967296 }
        ensures result { result ≡ self.new.state }
    {
        self.state = self.state.wrapping_mul(1664525).wrapping_add(1013904223);
        self.state
    }

    // A number from -size to size; a size above LOUDEST counts as that.
    fn noise(&mut self, size: u32) -> i32
        ensures state { self.new.state ≡ next_state self.old.state }
        ensures result { result ≡ noise_number (min size LOUDEST) self.new.state }
    {
        let most = size.min(LOUDEST);
        (self.next_u32() / 256 % (2 * most + 1)) as i32 - most as i32
    }

    // A value with noise on it, where that fits 32 bits.
    fn noisy(&mut self, z: Complex, size: u32) -> Option<Complex>
        ensures state { OnSome result (self.new.state ≡ next_state (next_state self.old.state)) }
        ensures result { let x = z ⊕ chip_noise (min size LOUDEST) self.old.state in SomeIff result (Fits32 x) x }
    {
        let re = z.re.checked_add(self.noise(size))?;
        let im = z.im.checked_add(self.noise(size))?;
        Some(Complex { re, im })
    }
}

// The most noise that a chip can get.
pub const LOUDEST: u32 = 100_000;

// Adds noise to a part of a recording of so many chips, or to no chip where one of the sums leaves 32 bits.
pub fn add<'a>(
    part: Part,
    chips: usize,
    seed: u32,
    size: u32,
    m: &mut Memory,
) -> Result<(), Fault<'a>>
    ensures ok { OnOk result (m.new ≡ with_noise part seed size m.old) }
    ensures err { OnErr result (m.new ≡ m.old) }
{
    if size > LOUDEST {
        return Err(Fault::Loud(size));
    }
    let Range { start, end } = part.within(chips)?;
    let mut trial = Generator::new(seed);
    for i in start..end {
        let z = m.recording.get(i).ok_or(Fault::Outside)?;
        trial.noisy(z, size).ok_or(Fault::Past(i))?;
    }
    let mut generator = Generator::new(seed);
    for i in start..end {
        if let Some(z) = m.recording.get(i) {
            if let Some(noisy) = generator.noisy(z, size) {
                m.recording.set(i, noisy);
            }
        }
    }
    Ok(())
}
