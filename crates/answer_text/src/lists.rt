// Lines of chips, readings, elements and bits.
use script::memory::Values;
use std::io::{Result, Write};
use std::ops::Range;
use text::answers::Answers;

// Writes the chips at these places as RE,IM, a blank between; in brief their count, the first four and the checksum.
pub fn chips<const N: usize>(
    out: &mut Answers,
    values: &Values<N>,
    places: Range<usize>,
    brief: bool,
) -> Result<()> {
    let (re, im) = values.range(places).unwrap_or((&[], &[]));
    if !brief {
        row(out, re, im, re.len())?;
        return out.byte(b'\n');
    }
    write!(out, "{}: ", re.len())?;
    row(out, re, im, 4)?;
    let sum = re
        .iter()
        .zip(im)
        .fold(0, |sum, (x, y)| going_on(going_on(sum, *x), *y));
    ended(out, re.len(), sum)
}

// The first `most` chips.
fn row(out: &mut Answers, re: &[i32], im: &[i32], most: usize) -> Result<()> {
    let mut blank = false;
    for (x, y) in re.iter().zip(im).take(most) {
        out.pair(blank, *x, *y)?;
        blank = true;
    }
    Ok(())
}

// Writes the first `count` elements, a blank between.
pub fn elements(out: &mut Answers, elements: &[i32], count: usize) -> Result<()> {
    let mut blank = false;
    for x in elements.iter().take(count) {
        if blank {
            out.byte(b' ')?;
        }
        out.number(*x)?;
        blank = true;
    }
    out.byte(b'\n')
}

// Writes bits with nothing between; in brief their count, the first 16 and the checksum.
pub fn bits(out: &mut Answers, bits: &[u8], brief: bool) -> Result<()> {
    if !brief {
        digits(out, bits)?;
        return out.byte(b'\n');
    }
    write!(out, "{}: ", bits.len())?;
    digits(out, &bits[..bits.len().min(16)])?;
    let sum = bits
        .iter()
        .fold(0, |sum, bit| going_on(sum, i32::from(*bit)));
    ended(out, bits.len(), sum)
}

fn digits(out: &mut Answers, bits: &[u8]) -> Result<()> {
    for bit in bits {
        out.number(*bit)?;
    }
    Ok(())
}

// The end of a line in brief, after the first ones of so many values.
fn ended(out: &mut Answers, count: usize, sum: u32) -> Result<()> {
    let blank = if count > 0 { " " } else { "" };
    writeln!(out, "{blank}checksum {sum}")
}

// The checksum once x has come: 16777619 sum + x, modulo 2^32.
fn going_on(sum: u32, x: i32) -> u32 {
    sum.wrapping_mul(16777619).wrapping_add(x.cast_unsigned())
}
