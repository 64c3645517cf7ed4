// What read multiplies chips by.
ghost use Rattle.std.specs.Prelude.{◌≡◌, ◌<◌, ℕ};
ghost use Rattle.complex.specs.Buffers.{block_of};
ghost use Rattle.codes.specs.Answers.{answer_by};
ghost use Rattle.codes.specs.Refusals.{◌otherwise◌};
ghost use Rattle.read.specs.Multipliers.{multiplier as multiplier_of};
ghost use Rattle.read.specs.Refused.{reader_refusals};

use codes::refusal::Refusal;
use codes::tree::Code;
use codes::{CellParameter, scrambling, tree};
use complex::{Block, Complex};

// A reader of one code in one cell: a cell parameter is 0 to 127.
#[derive(Clone, Copy)]
pub struct Reader {
    pub cell: CellParameter,
    pub code: Code,
    ghost known: { cell.0 < 128 },
}

impl Reader {
    // Refuses 1 parameter above 127; 3 bad q; 4 k not below q.
    pub fn new(cell: CellParameter, q: u32, k: u32) -> Result<Reader, Refusal>
        ensures { answer_by {B = ℕ × ℕ × ℕ} (λ r. (r.cell.0, r.code.q, r.code.k)) result ≡ reader_refusals cell.0 q k otherwise (cell.0, q, k) }
    {
        if 128 <= cell.0 {
            return Err(Refusal::CellOrGroup);
        }
        let code = Code::new(q, k)?;
        Ok(Reader { cell, code })
    }

    // What chip i of each sixteen is multiplied by.
    fn multiplier(self, i: u32) -> Complex
        ensures { result ≡ multiplier_of self.cell.0 self.code.q self.code.k i }
    {
        let sign = Complex::from(self.code.sign(i % self.code.q));
        scrambling::element(self.cell, i).conjugate().times(sign)
    }

    // The sixteen multipliers, which repeat every sixteen chips.
    pub fn multipliers(self) -> Block
        ensures { result ≡ block_of (multiplier_of self.cell.0 self.code.q self.code.k) }
    {
        Block::from_fn(|i| self.multiplier(i as u32))
    }
}
