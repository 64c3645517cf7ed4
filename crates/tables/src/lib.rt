// The tables of the settings, gains and pairs of bits: what the bench's calls test and write in them.
#![tactic(auto)]

pub mod bits;
pub mod gains;
pub mod pairs;
