// The words of a line after its call's name, as numbers.
ghost use Rattle.std.specs.Prelude.{◌<◌, length};

use crate::commands::Part;
use crate::faults::Fault;
use codes::CellParameter;
use complex::Complex;
use text::numbers::{to_component, to_natural};
use text::words::Words;

#[derive(Drop)]
pub struct Arguments<'a> {
    words: Words<'a>,
}

impl<'a> Arguments<'a> {
    pub fn new(words: Words<'a>) -> Arguments<'a> {
        Arguments { words }
    }

    // Those that are left.
    pub fn words(self) -> Words<'a> {
        self.words
    }

    pub fn word(&mut self) -> Option<&'a [u8]> {
        self.words.next()
    }

    pub fn number(&mut self) -> Result<u32, Fault<'a>> {
        natural(self.words.next().ok_or(Fault::Missing)?)
    }

    // The next number, or this one where no word is left.
    pub fn number_or(&mut self, other: u32) -> Result<u32, Fault<'a>> {
        match self.words.next() {
            None => Ok(other),
            Some(word) => natural(word),
        }
    }

    pub fn cell(&mut self) -> Result<CellParameter, Fault<'a>> {
        Ok(CellParameter(self.number()?))
    }

    // FROM and COUNT.
    pub fn part(&mut self) -> Result<Part, Fault<'a>> {
        let from = self.number()?;
        let count = self.number()?;
        Ok(Part { from, count })
    }

    // Nothing may follow.
    pub fn end(&mut self) -> Result<(), Fault<'a>> {
        match self.words.next() {
            None => Ok(()),
            Some(word) => Err(Fault::Extra(word)),
        }
    }

    // A chip, where there is one more: one word where that has a comma, and else two.
    pub fn chip(&mut self) -> Result<Option<Complex>, Fault<'a>> {
        let Some(word) = self.words.next() else {
            return Ok(None);
        };
        if let Some(comma) = word.iter().position(|b| *b == b',') {
            return Ok(Some(in_one_word(word, comma).ok_or(Fault::NoChip(word))?));
        }
        let re = component(word)?;
        let im = component(self.words.next().ok_or(Fault::Missing)?)?;
        Ok(Some(Complex { re, im }))
    }
}

fn natural<'a>(word: &'a [u8]) -> Result<u32, Fault<'a>> {
    to_natural(word).ok_or(Fault::NoNumber(word))
}

fn component<'a>(word: &'a [u8]) -> Result<i32, Fault<'a>> {
    to_component(word).ok_or(Fault::NoComponent(word))
}

// A chip as `show` tells it: re, a comma, im.
fn in_one_word(word: &[u8], comma: usize) -> Option<Complex>
    requires { comma < length word.now }
{
    Some(Complex {
        re: to_component(&word[..comma])?,
        im: to_component(&word[comma + 1..])?,
    })
}
