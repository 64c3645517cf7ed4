// Modulation, sixteen chips at a time: symbols spread by the open codes and scrambled, and the parts of the sync burst.
#![tactic(auto)]

pub mod burst;
pub mod data;
