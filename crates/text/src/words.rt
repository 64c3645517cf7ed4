// The words of a line: runs of bytes that are no blank. A `#` ends the line.
ghost use Rattle.std.specs.Prelude.{length};
ghost use Rattle.std.specs.Iterator.{at_most};

use std::fmt;
use std::fmt::Write;

#[derive(Drop)]
pub struct Words<'a> {
    // What is left of the line.
    rest: &'a [u8],
}

impl<'a> Words<'a> {
    pub fn new(line: &'a [u8]) -> Words<'a> {
        Words { rest: line }
    }
}

impl<'a> Iterator for Words<'a> {
    type Item = &'a [u8];

    ghost remaining = { λ s. at_most (length s.rest.now) };

    fn next(&mut self) -> Option<&'a [u8]> {
        let from = self.rest.iter().position(|b| !is_blank(*b))?;
        let line = &self.rest[from..];
        let to = line
            .iter()
            .position(|b| is_blank(*b) || *b == b'#')
            .unwrap_or(line.len());
        let (word, rest) = line.split_at(to);
        self.rest = rest;
        if word.is_empty() { None } else { Some(word) }
    }
}

fn is_blank(b: u8) -> bool {
    matches!(b, b' ' | b'\t' | b'\r')
}

// Prints a word between quotes, its first 32 bytes, and ? for a byte that is no printing ASCII character.
#[derive(Clone, Copy)]
pub struct Quoted<'a>(pub &'a [u8]);

impl fmt::Display for Quoted<'_> {
    fn fmt<W: fmt::Write>(&self, f: &mut fmt::Formatter<W>) -> fmt::Result {
        f.write_char('\'')?;
        for b in self.0.iter().take(32) {
            f.write_char(if b.is_ascii_graphic() {
                char::from(*b)
            } else {
                '?'
            })?;
        }
        f.write_str(if self.0.len() > 32 { "...'" } else { "'" })
    }
}
