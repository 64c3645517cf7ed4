// Why a line is not done, and what would be right.
use crate::{Context, nearest, refusals};
use codes::refusal::Refusal;
use script::faults::Fault;
use script::forms;
use script::memory::CHIPS;
use script::noise::LOUDEST;
use std::io::{Result, Write};
use text::answers::Answers;
use text::lines;
use text::words::{Quoted, Words};

// Writes what is wrong with a line; of a refusal its number, and what that means where refusals are not told in brief.
pub fn print(out: &mut Answers, fault: Fault<'_>, c: &Context<'_>) -> Result<()> {
    match fault {
        Fault::Unknown(word) => unknown(out, word, c),
        Fault::Missing => write!(out, "{c}: a word is missing; right is: {}", form(c)),
        Fault::Extra(word) => quoting(out, word, "a word too many", c),
        Fault::NoNumber(word) => quoting(out, word, "no number from 0 to 4294967295", c),
        Fault::NoComponent(word) => {
            quoting(out, word, "no number from -2147483648 to 2147483647", c)
        }
        Fault::NoChip(word) => quoting(out, word, "no chip of two numbers", c),
        Fault::NoRecord(word) => quoting(out, word, "no record of three numbers", c),
        Fault::NoBits(word) => quoting(out, word, "no word of digits", c),
        Fault::Loud(size) => write!(
            out,
            "{c}: a noise of size {size} is too large; right is: at most {LOUDEST}"
        ),
        Fault::Outside => write!(
            out,
            "{c}: the recording ends before that; right is: FROM + COUNT at most {}",
            c.chips
        ),
        Fault::Full(count) => write!(
            out,
            "{c}: there is no room for {count} more; right is: at most {}, or erase first",
            CHIPS.saturating_sub(c.chips)
        ),
        Fault::NoReadings => write!(
            out,
            "{c}: there are no readings yet; right is: a read that is accepted"
        ),
        Fault::Past(chip) => write!(
            out,
            "{c}: the noise takes chip {chip} past 32 bits; right is: a smaller SIZE"
        ),
        Fault::Long => write!(
            out,
            "{c}: the line has more than 65536 bytes; right is: at most 65536"
        ),
        Fault::Refused(refusal) => {
            write!(out, "refused {}", refusal.number())?;
            meaning(out, refusal, c)
        }
        Fault::RefusedAt(refusal, place) => {
            write!(out, "refused {} place {place}", refusal.number())?;
            meaning(out, refusal, c)
        }
    }
}

fn quoting(out: &mut Answers, word: &[u8], what: &str, c: &Context<'_>) -> Result<()> {
    let word = Quoted(word);
    write!(out, "{c}: {word} is {what}; right is: {}", form(c))
}

fn unknown(out: &mut Answers, word: &[u8], c: &Context<'_>) -> Result<()> {
    let quoted = Quoted(word);
    match nearest::row(word) {
        Some(row) => write!(
            out,
            "{c}: {quoted} is no call; nearest is: {}",
            forms::words_of(row)
        ),
        None => write!(
            out,
            "{c}: {quoted} is no call; right is: one of those that help lists"
        ),
    }
}

fn name<'a>(c: &Context<'a>) -> &'a [u8] {
    Words::new(c.line).next().unwrap_or(b"")
}

// The form of the line's call.
fn form(c: &Context<'_>) -> &'static str {
    forms::words_of(forms::of_call(name(c)).unwrap_or(""))
}

fn meaning(out: &mut Answers, refusal: Refusal, c: &Context<'_>) -> Result<()> {
    if c.brief {
        return Ok(());
    }
    write!(out, "{}", refusals::words(refusal, name(c)))
}
