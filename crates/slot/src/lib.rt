// The timeslot of document 01: the settings that it is made of, and its chips.
#![tactic(auto)]

use codes::CellParameter;

mod burst;
pub mod field;
pub mod parts;

// A sync burst's settings; `on` is 0 where none is sent. Its code group is the cell's.
#[repr(C)]
#[derive(Clone, Copy)]
pub struct Sync {
    pub on: u8,
    pub case: u32,
    pub frame: u32,
    pub half: u32,
    pub gp: u16,
    pub gs: u16,
}

// The settings of a slot. `gains` has one entry a code: code (q, k) at q - 1 + k, 0 where it is not open. `pairs` has one entry, 0 to 3, for
// each pair of bits, block by block of 16 chips, both fields in a row: in a block code (q, k) owns 16/q entries from k 16/q on.
#[repr(C)]
#[derive(Clone, Copy)]
pub struct Settings {
    pub cell: CellParameter,
    pub kind: u32,
    pub gains: [u16; 31],
    pub pairs: [u8; 2208],
    pub sync: Sync,
}
