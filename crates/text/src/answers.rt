// Answers are gathered in a buffer that goes to standard output when it is full, and before the program waits for input.
ghost use Rattle.std.specs.Prelude.{◌≡◌, ◌+◌, ◌≤◌, length, OnOk};

use itoa::{Buffer, Integer};
use std::io::{Print, Result, Stdout, Write};

pub const ROOM: usize = 65536;

// A blank, a comma, and two numbers of ten digits and a sign.
const LONGEST_PAIR: usize = 24;

// std's BufWriter has its buffer on the heap.
#[derive(Drop)]
pub struct Answers {
    bytes: [u8; ROOM],
    // How many of the bytes wait.
    used: usize,
    to: Stdout,
    ghost within: { used ≤ 65536 },
}

impl Answers {
    pub fn new(to: Stdout) -> Answers {
        Answers {
            bytes: [0; ROOM],
            used: 0,
            to,
        }
    }

    pub fn byte(&mut self, b: u8) -> Result<()> {
        if self.used == ROOM {
            self.empty()?;
        }
        self.bytes[self.used] = b;
        self.used += 1;
        Ok(())
    }

    pub fn number<N: Integer>(&mut self, x: N) -> Result<()> {
        let mut digits = Buffer::new();
        self.write_all(digits.format(x).as_bytes())
    }

    // Two numbers with a comma between, after a blank where one is due. Where there is room for the longest, no part can fail: std's errors are large,
    // and a Result for each part took longer than the part.
    pub fn pair(&mut self, blank: bool, x: i32, y: i32) -> Result<()> {
        if self.used > ROOM - LONGEST_PAIR {
            return self.parted(blank, x, y);
        }
        if blank {
            self.put(b" ");
        }
        let mut digits = Buffer::new();
        self.put(digits.format(x).as_bytes());
        self.put(b",");
        self.put(digits.format(y).as_bytes());
        Ok(())
    }

    #[inline(always)]
    fn put(&mut self, s: &[u8])
        requires { self.old.used + length s.now ≤ 65536 }
        ensures { self.new.used ≡ self.old.used + length s.now }
    {
        let from = self.used;
        let to = from + s.len();
        self.bytes[from..to].copy_from_slice(s);
        self.used = to;
    }

    // Writes the bytes that wait.
    #[cold]
    fn empty(&mut self) -> Result<()>
        ensures { OnOk result (self.new.used ≡ 0) }
    {
        self.to.write_all(&self.bytes[..self.used])?;
        self.used = 0;
        Ok(())
    }

    // The same by parts, where there may be no room for all of it: the buffer goes out when it is full, as with every other answer.
    #[cold]
    fn parted(&mut self, blank: bool, x: i32, y: i32) -> Result<()> {
        if blank {
            self.byte(b' ')?;
        }
        self.number(x)?;
        self.byte(b',')?;
        self.number(y)
    }

    // Writes a text that there is no room for as a whole.
    #[cold]
    fn piecewise(&mut self, s: &[u8]) -> Result<()> {
        for b in s {
            self.byte(*b)?;
        }
        Ok(())
    }
}

impl Write for Answers {
    fn write(&mut self, s: &[u8]) -> Result<usize> {
        self.write_all(s)?;
        Ok(s.len())
    }

    fn flush(&mut self) -> Result<()> {
        self.empty()
    }

    #[inline(always)]
    fn write_all(&mut self, s: &[u8]) -> Result<()> {
        if s.len() > ROOM - self.used {
            return self.piecewise(s);
        }
        self.put(s);
        Ok(())
    }
}
