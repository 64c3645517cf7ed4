// The sync burst where it falls in the slot.
ghost use Rattle.std.specs.Prelude.{◌≡◌, ◌+◌, ◌%◌};
ghost use Rattle.complex.specs.Buffers.{block_of};
ghost use Rattle.complex.specs.Fits.{Bound};
ghost use Rattle.slot.specs.Slot.{burst_falls_on, sync_chip};
ghost use Rattle.slot.specs.View.{view_sync};

use crate::Sync;
use codes::{CellParameter, burst, scrambling};
use complex::Block;
use modulation::burst as parts;

// Whether a cell's burst falls on chip x of the slot.
pub fn falls(cell: CellParameter, y: Sync, x: usize) -> bool
    ensures { result ≡ burst_falls_on cell.0 (view_sync cell.0 y) x }
{
    if y.on == 0 {
        return false;
    }
    if 128 <= cell.0 {
        return false;
    }
    let start = burst::start_of(scrambling::group_of(cell)) as usize;
    start <= x && x < start + 256
}

// What a cell's burst adds to the sixteen chips of the slot from chip x on: bursts start at a multiple of 16.
pub fn at(cell: CellParameter, y: Sync, x: usize) -> Block
    requires { x % 16 ≡ 0 }
    ensures chips { result ≡ block_of (λ i. sync_chip cell.0 (view_sync cell.0 y) (x + i)) }
    ensures size { Bound 1000000 result.re × Bound 1000000 result.im }
{
    if !falls(cell, y, x) {
        return parts::silence();
    }
    let group = scrambling::group_of(cell);
    let start = burst::start_of(group) as usize;
    parts::part(
        y.case,
        group,
        y.frame,
        y.half,
        y.gp,
        y.gs,
        ((x - start) / 16) as u32,
    )
}
