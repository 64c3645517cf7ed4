// The forms of the calls. A row has a call's name, its words and a comment; words in brackets may be left out.
use text::words::Words;

// What `help` prints.
pub const FORMS: &str =
    "set-cell P T                      # cell 0 to 127, type 1 to 3; closes all codes
open Q K G                        # code (Q, K), gain 1 to 4095, with bits all 0
load-plan [Q,K,G]...              # these codes in place of all open ones
close Q K                         # code (Q, K) is open no more
set-gain Q K G                    # a new gain for an open code; its bits stay
load-bits Q K [BITS|random SEED]  # bits 0110, or 0110.. and 0s, or 0110* again
set-sync CASE FRAME HALF GP GS    # the cell's sync burst; gains 1 to 4095
clear-sync                        # no sync burst
settings                          # what is set, and what the slot has left
start                             # a slot of 2560 chips with these settings
draw N [M]                        # records the next chips of it, at most N
record RE IM [RE IM]...           # records chips of your own, also as RE,IM
silence COUNT                     # records COUNT chips of 0
noise FROM COUNT SEED SIZE        # adds noise, -SIZE to SIZE, to these chips
erase                             # empties the recording
show FROM COUNT                   # COUNT chips from FROM on; the first is 0
read P Q K FROM COUNT             # what code (Q, K) reads in them in cell P
harden                            # the bits of what the last read gave
read-sync CASE FROM COUNT         # what a sync burst of 256 chips was sent for
find FROM COUNT                   # where the primary sync code is strongest
element Q K CHIP                  # chip CHIP of code (Q, K); the first is 0
related Q K Q K                   # whether equal, or one above the other
code-group P                      # the code group of cell parameter P
scrambling-chip P CHIP            # chip CHIP of scrambling code P
primary-chip CHIP                 # chip CHIP of the primary sync code
secondary-chip I CHIP             # chip CHIP of secondary sync code I
allocation CASE G FRAME HALF      # the sync codes of code group G, with units
burst-start G                     # where the burst of code group G begins
code Q K                          # all of code (Q, K)
scrambling P                      # all of scrambling code P
primary                           # all of the primary sync code
secondary I                       # all of secondary sync code I
brief                             # long lines by count, first values, checksum
full                              # long lines and refusals in full again
refusals                          # what the number of a refusal means
help                              # this list
# In brackets: may be left out; | is or. Before ...: as often as you like.
";

// The row of the call with this name.
pub fn of_call(name: &[u8]) -> Option<&'static str> {
    FORMS
        .lines()
        .find(|row| name_of(row).is_some_and(|call| call == name))
}

// The name of a row's call; a row that is all comment has none.
pub fn name_of(row: &str) -> Option<&[u8]> {
    Words::new(row.as_bytes()).next()
}

// A row without its comment.
pub fn words_of(row: &str) -> &str {
    match row.split_once('#') {
        Some((words, _)) => words.trim_end(),
        None => row,
    }
}
