// The analyser's call find: where the primary sync code is strongest in a recording. It takes any buffers,
// refuses by document 01's number and leaves every buffer as it was where it refuses.
#![tactic(auto)]

ghost use Rattle.std.specs.Prelude.{◌≡◌, length};
ghost use Rattle.codes.specs.Answers.{answer_of};
ghost use Rattle.find.specs.Finding.{find_call, ScratchLeft};

use analyser_parts::components;
use codes::refusal::Refusal;
use finding::Recording;

mod finding;

// Where 256 chips are most like the primary code, and the squared size of their correlation with it.
#[derive(Clone, Copy)]
pub struct Peak {
    pub start: usize,
    pub size: i64,
}

// Where the primary code is strongest in a recording of 256 to 5120 chips, and how strong. `sumre` and `sumim` are
// scratch: 15 entries fewer than the recording has chips are enough.
// Refuses 12 re and im differ in length; 16 a recording shorter than 256 chips or longer than 5120; 17 a component outside
// -100000 to 100000; 18 a scratch buffer too short.
pub fn find(re: &[i32], im: &[i32], sumre: &mut [i32], sumim: &mut [i32]) -> Result<Peak, Refusal>
    ensures answer { answer_of result ≡ find_call re.now im.now (length sumre.old) (length sumim.old) }
    ensures real { ScratchLeft (find_call re.now im.now (length sumre.old) (length sumim.old)) sumre.old sumre.new }
    ensures imaginary { ScratchLeft (find_call re.now im.now (length sumre.old) (length sumim.old)) sumim.old sumim.new }
{
    let recording = Recording::new(re, im)?;
    if components::is_either_shorter(sumre.len(), sumim.len(), re.len() - 15) {
        return Err(Refusal::BufferTooShort);
    }
    Ok(recording.peak(sumre, sumim))
}
