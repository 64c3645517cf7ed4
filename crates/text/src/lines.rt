// The lines of an input that is read in pieces. A line has at most 65,536 bytes; a longer one is cut after one byte more, and what follows is dropped.
ghost use Rattle.std.specs.Prelude.{◌≤◌, ◌<◌, IfSome};

use crate::answers::Answers;
use crate::files::{Failure, Source};
use std::io::Write;
use std::ops::Range;
use std::{io, mem};

// One byte more than the longest line, for its line end.
pub const ROOM: usize = 65537;

const BYTE_ORDER_MARK: &[u8] = b"\xef\xbb\xbf";

// std's BufReader has its buffer on the heap.
#[derive(Drop)]
pub struct Lines {
    source: Source,
    bytes: [u8; ROOM],
    // The bytes that wait: bytes[from..to].
    from: usize,
    to: usize,
    // Whether what comes belongs to a line that is too long.
    skips: bool,
    // Whether the input has no more bytes.
    ended: bool,
    // Whether no line was given yet.
    first: bool,
    ghost within: { (from ≤ to) × (to ≤ 65537) },
}

impl Lines {
    pub fn new(source: Source) -> Lines {
        Lines {
            source,
            bytes: [0; ROOM],
            from: 0,
            to: 0,
            skips: false,
            ended: false,
            first: true,
        }
    }

    // The next line; ROOM bytes where it is too long. The answers that wait are written before input is waited for.
    pub fn next(&mut self, out: &mut Answers) -> Result<Option<&[u8]>, Failure> {
        let Some(line) = self.place(out)? else {
            return Ok(None);
        };
        let first = mem::take(&mut self.first);
        let text = self.bytes.get(line).unwrap_or(b"");
        if first && text.len() < ROOM {
            return Ok(Some(text.strip_prefix(BYTE_ORDER_MARK).unwrap_or(text)));
        }
        Ok(Some(text))
    }

    // Where the next line stands. Nothing says that the input ends, and a proved loop has to: no run uses up its turns.
    fn place(&mut self, out: &mut Answers) -> Result<Option<Range<usize>>, Failure> {
        for _ in 0..u64::MAX {
            if let Some(line) = self.whole() {
                return Ok(Some(line));
            }
            if self.ended {
                return Ok(self.last());
            }
            if let Some(line) = self.too_long() {
                return Ok(Some(line));
            }
            out.flush().map_err(Failure::Write)?;
            self.fill().map_err(Failure::Read)?;
        }
        Ok(None)
    }

    // The line whose end waits. The end of a line that is too long is dropped.
    fn whole(&mut self) -> Option<Range<usize>> {
        if self.skips {
            match self.line_end() {
                Some(end) => {
                    self.from = end + 1;
                    self.skips = false;
                }
                None => self.from = self.to,
            }
        }
        let from = self.from;
        let end = self.line_end()?;
        self.from = end + 1;
        Some(from..end)
    }

    // What follows the last line end, where that is something.
    fn last(&mut self) -> Option<Range<usize>> {
        let from = self.from;
        self.from = self.to;
        if from < self.to {
            Some(from..self.to)
        } else {
            None
        }
    }

    // The bytes that wait go to the start; where there are ROOM of them, they are a line.
    fn too_long(&mut self) -> Option<Range<usize>> {
        self.bytes.copy_within(self.from..self.to, 0);
        self.to -= self.from;
        self.from = 0;
        if self.to < ROOM {
            return None;
        }
        self.to = 0;
        self.skips = true;
        Some(0..ROOM)
    }

    // The place of the first line end that waits.
    fn line_end(&self) -> Option<usize>
        ensures { IfSome result (λ end. (self.now.from ≤ end) × (end < self.now.to)) }
    {
        let n = memchr::memchr(b'\n', &self.bytes[self.from..self.to])?;
        Some(self.from + n)
    }

    // Reads once, past the bytes that wait.
    fn fill(&mut self) -> io::Result<()> {
        let got = self.source.read(&mut self.bytes[self.to..])?;
        self.to += got;
        self.ended = got == 0;
        Ok(())
    }
}
