// The program tdd: runs scripts of calls of bench, analyser and code rules. docs/TDD.md is its manual.
#![tactic(auto)]

use std::env::FillError;
use std::io::Error;
use std::process::ExitCode;
use std::rt::{Env, HostRuntime};
use text::files;
use text::files::Source;

// Linux's ENAMETOOLONG.
const NAME_TOO_LONG: i32 = 36;

fn main(rt: HostRuntime) -> ExitCode {
    program(&rt).err().unwrap_or(ExitCode::SUCCESS)
}

// The scripts that the arguments name, or else standard input. Err has the status to end with where no next script can be run.
fn program(rt: &HostRuntime) -> Result<(), ExitCode> {
    let count = arg_count(rt);
    if count < 2 {
        return answer_input(rt);
    }
    (1..count).try_for_each(|i| answer_argument(rt, i, count > 2))
}

// How many arguments there are, the program's name among them. No heap: std's iterator of arguments makes each a String.
fn arg_count(rt: &HostRuntime) -> usize {
    (0..usize::MAX)
        .position(|i| matches!(rt.arg(i, &mut []), Err(FillError::NotPresent)))
        .unwrap_or(usize::MAX)
}

// Answers the script on standard input.
fn answer_input(rt: &HostRuntime) -> Result<(), ExitCode> {
    let source = Source::Standard(rt.stdin());
    let ending = scripts::answer_all(source, rt.stdout());
    files::ended(rt, ending, b"standard input")
}

// The script that argument i names.
fn answer_argument(rt: &HostRuntime, i: usize, several: bool) -> Result<(), ExitCode> {
    let mut path = [0u8; 4096];
    match rt.arg(i, &mut path) {
        Ok(n) => answer_file(rt, &path[..n], several),
        Err(_) => {
            let why = Error::from_raw_os_error(NAME_TOO_LONG);
            files::fail(rt, b"tdd: cannot open ", b"a script", why);
            Ok(())
        }
    }
}

// The script with this name, `-` for standard input. Where there are several it says first which.
fn answer_file(rt: &HostRuntime, name: &[u8], several: bool) -> Result<(), ExitCode> {
    if several {
        if let Err(why) = files::heading(rt, name) {
            return files::ended(rt, Err(why), name);
        }
    }
    if name == b"-".as_slice() {
        return answer_input(rt);
    }
    match files::opened(rt, name) {
        Some(source) => files::ended(rt, scripts::answer_all(source, rt.stdout()), name),
        None => Ok(()),
    }
}
