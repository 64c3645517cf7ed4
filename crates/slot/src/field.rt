// The chips of a slot, part by part.
ghost use Rattle.std.specs.Prelude.{◌≡◌, cond, ◌+◌, ◌-◌, ◌%◌, ◌<◌, ◌≤◌, min, ltb, pos, get_or, length};
ghost use Rattle.complex.specs.Arithmetic.{𝟎, ◌⊕◌};
ghost use Rattle.complex.specs.Buffers.{listed, value};
ghost use Rattle.complex.specs.Fits.{Bound};
ghost use Rattle.modulation.specs.Modulated.{modulated_chip};
ghost use Rattle.slot.specs.Slot.{slot_chip, sync_chip};
ghost use Rattle.slot.specs.View.{view, view_sync};

use crate::{Settings, Sync, burst, parts};
use codes::CellParameter;
use complex::Block;
use modulation::burst::sums;
use modulation::data::Modulator;

// The entries of a block from `from` on, as many as the part of a buffer has.
fn put(part: &mut [i32], x: &[i32; 16], from: usize)
    requires { from + length part.old ≤ 16 }
    ensures { part.new ≡ listed (length part.old) (λ i. get_or x.now (from + i) (pos 0)) }
{
    part.copy_from_slice(&x[from..from + part.len()]);
}

// Chips of the midamble or the guard.
fn write_silence(part: &mut [i32])
    ensures { part.new ≡ listed (length part.old) (λ i. pos 0) }
{
    part.fill(0);
}

// A field: how many chips the fields before it have, and the slot's chip at which it starts.
#[derive(Clone, Copy)]
struct Field {
    before: usize,
    start: usize,
    ghost places: { (before % 16 ≡ 0) × (start % 16 ≡ 0) × (start ≤ 2560) },
}

// What sends the chips of a slot: the modulator of its data, and its cell's burst.
#[derive(Drop)]
struct Sender<'a> {
    data: Modulator<'a>,
    cell: CellParameter,
    sync: Sync,
}

impl<'a> Sender<'a> {
    ghost use Rattle.slot.specs.Sent.{sent_chip};

    // A whole block without burst, to parts of sixteen chips.
    fn write_whole(&self, from: usize, re: &mut [i32], im: &mut [i32])
        requires { (from + 16 ≤ 2208) × (length re.old ≡ 16) × (length im.old ≡ 16) }
        ensures real { re.new ≡ listed 16 (λ i. (modulated_chip self.now.data from i).re) }
        ensures imaginary { im.new ≡ listed 16 (λ i. (modulated_chip self.now.data from i).im) }
    {
        let c = self.data.block(from);
        put(re, &c.re, 0);
        put(im, &c.im, 0);
    }

    // A block's chips from chip i on with the burst's chips b, as many as the parts have.
    fn write_part(&self, from: usize, b: &Block, i: usize, re: &mut [i32], im: &mut [i32])
        requires { (from + 16 ≤ 2208) × (i + length re.old ≤ 16) × (i + length im.old ≤ 16) × Bound 1000000 b.now.re × Bound 1000000 b.now.im }
        ensures real { re.new ≡ listed (length re.old) (λ j. (modulated_chip self.now.data from (i + j) ⊕ value b.now.re b.now.im (i + j)).re) }
        ensures imaginary { im.new ≡ listed (length im.old) (λ j. (modulated_chip self.now.data from (i + j) ⊕ value b.now.re b.now.im (i + j)).im) }
    {
        let c = self.data.block(from);
        let x = sums(&c.re, &b.re);
        let y = sums(&c.im, &b.im);
        put(re, &x, i);
        put(im, &y, i);
    }

    // A block's chips from chip i on, as many as the parts have; its pairs stand from `from` on, and its first chip is the slot's chip x. Most
    // blocks are whole and have no burst: they go straight to the buffers.
    fn write_block(&self, from: usize, x: usize, i: usize, re: &mut [i32], im: &mut [i32])
        requires { (from + 16 ≤ 2208) × (i + length re.old ≤ 16) × (length im.old ≡ length re.old) × (x % 16 ≡ 0) }
        ensures real { re.new ≡ listed (length re.old) (λ j. (modulated_chip self.now.data from (i + j) ⊕ sync_chip self.now.cell.0 (view_sync self.now.cell.0 self.now.sync) (x + (i + j))).re) }
        ensures imaginary { im.new ≡ listed (length im.old) (λ j. (modulated_chip self.now.data from (i + j) ⊕ sync_chip self.now.cell.0 (view_sync self.now.cell.0 self.now.sync) (x + (i + j))).im) }
    {
        if re.len() == 16 && !burst::falls(self.cell, self.sync, x) {
            self.write_whole(from, re, im);
        } else {
            let b = burst::at(self.cell, self.sync, x);
            self.write_part(from, &b, i, re, im);
        }
    }

    // Chips of a field from its chip q on, to the part of the buffers that they fall in. A `while`, for the wrong program field_never_ends is a turn of it.
    fn write_field(&self, field: Field, q: usize, re: &mut [i32], im: &mut [i32])
        requires { (length im.old ≡ length re.old) × (0 < length re.old → field.before + q + length re.old ≤ 2208) }
        ensures real { re.new ≡ listed (length re.old) (λ i. (sent_chip self.now field (q + i)).re) }
        ensures imaginary { im.new ≡ listed (length im.old) (λ i. (sent_chip self.now field (q + i)).im) }
    {
        let n = re.len();
        let mut done = 0;
        while done < n {
            let from = q + done;
            let i = from % 16;
            let first = from - i;
            let end = done + (16 - i).min(n - done);
            self.write_block(
                field.before + first,
                field.start + first,
                i,
                &mut re[done..end],
                &mut im[done..end],
            );
            done = end;
        }
    }

    // A field and the midamble or the guard after it: the first `count` chips are the field's, from its chip q on, the others are 0.
    fn write_half(&self, field: Field, q: usize, count: usize, re: &mut [i32], im: &mut [i32])
        requires { (length im.old ≡ length re.old) × (count ≤ length re.old) × (0 < count → field.before + q + count ≤ 2208) }
        ensures real { re.new ≡ listed (length re.old) (λ i. (cond (ltb i count) (sent_chip self.now field (q + i)) 𝟎).re) }
        ensures imaginary { im.new ≡ listed (length im.old) (λ i. (cond (ltb i count) (sent_chip self.now field (q + i)) 𝟎).im) }
    {
        self.write_field(field, q, &mut re[..count], &mut im[..count]);
        write_silence(&mut re[count..]);
        write_silence(&mut im[count..]);
    }
}

// Where a part that ends before the slot's chip `end` ends in a buffer of n chips from chip `from` on.
fn cut(end: usize, from: usize, n: usize) -> usize
    ensures { result ≡ min (end - from) n }
{
    end.saturating_sub(from).min(n)
}

// The chips of the slot of these settings from chip `from` on, as many as the buffers have, 0 past the slot's end: each of the slot's four
// parts is written into its own part of the buffers.
pub fn write(settings: &Settings, from: usize, re: &mut [i32], im: &mut [i32])
    requires { length im.old ≡ length re.old }
    ensures real { re.new ≡ listed (length re.old) (λ i. (slot_chip (view settings.now) (from + i)).re) }
    ensures imaginary { im.new ≡ listed (length im.old) (λ i. (slot_chip (view settings.now) (from + i)).im) }
{
    let sender = Sender {
        data: Modulator::new(settings.cell, &settings.gains, &settings.pairs),
        cell: settings.cell,
        sync: settings.sync,
    };
    let p = parts::parts_of(settings.kind);
    let n = re.len();
    let second = p.field1 + p.midamble;
    let a = cut(p.field1, from, n);
    let b = cut(second, from, n);
    let c = cut(second + p.field2, from, n);
    let field1 = Field {
        before: 0,
        start: 0,
    };
    let field2 = Field {
        before: p.field1,
        start: second,
    };
    sender.write_half(field1, from, a, &mut re[..b], &mut im[..b]);
    let q = from.saturating_sub(second);
    sender.write_half(field2, q, c - b, &mut re[b..], &mut im[b..]);
}
