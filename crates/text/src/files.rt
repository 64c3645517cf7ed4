// Scripts by their names, and what is told where one cannot be read or answered.
ghost use Rattle.std.specs.Prelude.{◌≤◌, IfOk, length};

use std::fs::File;
use std::io::{Cursor, Error, ErrorKind, Print, Read, Stderr, Stdin, Write};
use std::process::ExitCode;
use std::rt::HostRuntime;

// Linux's EILSEQ.
const NOT_TEXT: i32 = 84;

// The status with which a program ends whose answers nobody reads any more, as if the signal SIGPIPE had ended it. Nothing is told then.
const UNREAD: u8 = 141;

// What a script is read from. A file is closed where it is dropped.
#[derive(Drop)]
pub enum Source {
    Standard(Stdin),
    File(File),
}

impl Source {
    // Reads once, and answers how many bytes came: none at the end.
    pub fn read(&mut self, part: &mut [u8]) -> std::io::Result<usize>
        ensures { IfOk result (λ n. n ≤ length part.old) }
    {
        match self {
            Source::Standard(input) => input.read(part),
            Source::File(file) => file.read(part),
        }
    }
}

// Why a script was not answered to its end.
#[derive(Debug, Drop)]
pub enum Failure {
    Read(Error),
    Write(Error),
}

// Says what failed, and why, on standard error. The program's status does not tell it: the command ./tdd gives it a descriptor 3 for that.
pub fn fail(rt: &HostRuntime, what: &[u8], name: &[u8], why: Error) {
    tell(rt.stderr(), what, name, why);
    io::write_all(3, b"failed\n");
}

// A write that fails keeps none of those after it back.
fn tell(to: Stderr, what: &[u8], name: &[u8], why: Error) {
    let mut text = Cursor::new([0u8; 128]);
    let _ = write!(text, "{why}");
    let _ = to.write_all(what);
    let _ = to.write_all(name);
    let _ = to.write_all(b": ");
    let _ = to.write_all(without_number(&text.into_inner()));
    let _ = to.write_all(b"\n");
}

// The words of an error's text: what stands before its number, or before the zeros after it.
fn without_number(text: &[u8]) -> &[u8] {
    let number = text
        .windows(11)
        .position(|part| part == b" (os error ".as_slice());
    let zeros = text.iter().position(|b| *b == 0);
    let end = number.or(zeros).unwrap_or(text.len());
    text.get(..end).unwrap_or(text)
}

// Tells how the run of the script with this name ended; Err is the status to end with, where no next script can be run.
pub fn ended(rt: &HostRuntime, ending: Result<(), Failure>, name: &[u8]) -> Result<(), ExitCode> {
    match ending {
        Ok(()) => Ok(()),
        Err(Failure::Read(why)) => {
            fail(rt, b"tdd: cannot read ", name, why);
            Ok(())
        }
        Err(Failure::Write(why)) => {
            if why.kind() == ErrorKind::BrokenPipe {
                return Err(ExitCode::from(UNREAD));
            }
            fail(rt, b"tdd: cannot write ", b"the answers", why);
            Err(ExitCode::SUCCESS)
        }
    }
}

// Writes a script's name before its answers, where that can be done.
pub fn heading(rt: &HostRuntime, name: &[u8]) -> Result<(), Failure> {
    let to = rt.stdout();
    to.write_all(b"==> ").map_err(Failure::Write)?;
    to.write_all(name).map_err(Failure::Write)?;
    to.write_all(b" <==\n").map_err(Failure::Write)
}

// Opens the script with this name; where it cannot, that is told, and there is none.
pub fn opened(rt: &HostRuntime, name: &[u8]) -> Option<Source> {
    match open(rt, name) {
        Ok(file) => Some(Source::File(file)),
        Err(why) => {
            fail(rt, b"tdd: cannot open ", name, why);
            None
        }
    }
}

// Only a name that is text can be opened.
fn open(rt: &HostRuntime, name: &[u8]) -> std::io::Result<File> {
    match str::from_utf8(name) {
        Ok(text) => File::open(rt, text),
        Err(_) => Err(Error::from_raw_os_error(NOT_TEXT)),
    }
}
