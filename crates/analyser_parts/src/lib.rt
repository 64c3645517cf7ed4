// What the analyser's calls share, and `largest`, which is find's alone; each call is a crate of its own
// (read, harden, read_sync, find). The products of
// `correlation` ask for sizes that fit; all else is total.
#![tactic(auto)]

pub mod components;
pub mod correlation;
pub mod largest;
