// The table of pairs, the bits of all codes: block by block of sixteen entries, code (q, k) has 16/q of each.
ghost use Rattle.std.specs.Prelude.{◌≡◌, true, false, cond, ◌+◌, ◌*◌, ◌%◌, ◌<◌, ◌≤◌, length};
ghost use Rattle.complex.specs.Buffers.{listed};
ghost use Rattle.modulation.specs.Symbols.{pair as pair_of};
ghost use Rattle.tables.specs.Bits.{has_byte_above_1, pairs_with_bits};
ghost use Rattle.tables.specs.OpenCodes.{is_leaf_open};
ghost use Rattle.tables.specs.PairChanges.{cleared, with_open_cleared, with_part};

use crate::gains::is_open;
use codes::tree::{self, Code};
use std::array;

// Pair n of the bits, by its number.
fn inner_pair(bits: &[u8], n: usize) -> u8
    requires { (2 * n + 2 ≤ length bits.now) × (has_byte_above_1 bits.now ≡ false) }
    ensures { result ≡ pair_of bits.now n }
{
    2 * bits[2 * n] + bits[2 * n + 1]
}

// The same; 0 past their end.
fn pair(bits: &[u8], n: usize) -> u8
    requires { (n < 2208) × (has_byte_above_1 bits.now ≡ false) × (length bits.now % 2 ≡ 0) }
    ensures { result ≡ pair_of bits.now n }
{
    if bits.len() <= 2 * n {
        return 0;
    }
    inner_pair(bits, n)
}

// The pairs of the bits from pair n on, to the w entries from `at` on. By an index, here and in `put_block`: through the slice's iter_mut and enumerate,
// tried in both, bits take longer to load. The last pairs lie past the bits, so these are no slice of as many.
fn put_pairs(pairs: &mut [u8; 2208], at: usize, w: usize, bits: &[u8], n: usize)
    requires { (at + w ≤ 2208) × (n + w ≤ 2208) × (has_byte_above_1 bits.now ≡ false) × (length bits.now % 2 ≡ 0) }
    ensures { pairs.new ≡ with_part pairs.old at w (λ i. pair_of bits.now (n + i)) }
{
    // As a slice, for a proof is not told the length of an array behind a reference.
    let all = &mut pairs[..];
    for i in 0..w {
        all[at + i] = pair(bits, n + i);
    }
}

// The same for a whole block of pairs that are all inside the bits: with no test a pair, it is twice as fast.
fn put_block(pairs: &mut [u8; 2208], at: usize, bits: &[u8], n: usize)
    requires { (at + 16 ≤ 2208) × (2 * n + 32 ≤ length bits.now) × (has_byte_above_1 bits.now ≡ false) }
    ensures { pairs.new ≡ with_part pairs.old at 16 (λ i. pair_of bits.now (n + i)) }
{
    let all = &mut pairs[..];
    for i in 0..16 {
        all[at + i] = inner_pair(bits, n + i);
    }
}

// The pairs of a code in one block.
fn put_part(pairs: &mut [u8; 2208], at: usize, w: usize, bits: &[u8], n: usize)
    requires { (at + w ≤ 2208) × (n + w ≤ 2208) × (has_byte_above_1 bits.now ≡ false) × (length bits.now % 2 ≡ 0) }
    ensures { pairs.new ≡ with_part pairs.old at w (λ i. pair_of bits.now (n + i)) }
{
    if w == 16 {
        if 2 * n + 32 <= bits.len() {
            put_block(pairs, at, bits, n);
            return;
        }
    }
    put_pairs(pairs, at, w, bits, n);
}

// The bits of a code, 0 past their end: block by block of sixteen entries, its own 16/q of them.
pub fn set_bits(pairs: &mut [u8; 2208], code: Code, bits: &[u8])
    requires { (has_byte_above_1 bits.now ≡ false) × (length bits.now % 2 ≡ 0) }
    ensures { pairs.new ≡ pairs_with_bits pairs.old code.q code.k bits.now }
{
    let w = tree::width(code.q) as usize;
    let from = code.k as usize * w;
    // A number: it is the block, and gives where its part begins in the table and in the bits.
    for m in 0..138 {
        put_part(&mut *pairs, 16 * m + from, w, bits, m * w);
    }
}

// An entry, or 0 where it is to be cleared: a choice, which one mask makes.
fn kept(entry: u8, clear: bool) -> u8
    ensures { result ≡ cond clear 0 entry }
{
    if clear { 0 } else { entry }
}

// Clears the entries of these leaves in every block. All entries are written, those to keep as they were: one mask then serves every block of
// sixteen, which is one vector operation. By an index: one loop over the table's iter_mut, with leaf i % 16, was tried and takes several times as long.
fn clear_leaves(pairs: &mut [u8; 2208], leaves: &[bool; 16])
    ensures { (pairs.new ≡ cleared pairs.old leaves.now) × (length pairs.old ≡ 2208) }
{
    let all = &mut pairs[..];
    for m in 0..138 {
        for i in 0..16 {
            all[16 * m + i] = kept(all[16 * m + i], leaves[i]);
        }
    }
}

// Whether leaf l lies below an open code: one code of each factor has it, written out as constants.
fn is_leaf_open(gains: &[u16; 31], l: u32) -> bool
    requires { l < 16 }
    ensures { result ≡ is_leaf_open gains.now l }
{
    is_open(gains, Code { q: 1, k: 0 })
        | is_open(gains, Code { q: 2, k: l / 8 })
        | is_open(gains, Code { q: 4, k: l / 4 })
        | is_open(gains, Code { q: 8, k: l / 2 })
        | is_open(gains, Code { q: 16, k: l })
}

// Which leaves lie below open codes.
fn open_leaves(gains: &[u16; 31]) -> [bool; 16]
    ensures { result ≡ listed 16 (is_leaf_open gains.now) }
{
    array::from_fn(|l| is_leaf_open(gains, l as u32))
}

// Clears the pairs of every open code.
pub fn clear_open(pairs: &mut [u8; 2208], gains: &[u16; 31])
    ensures { pairs.new ≡ with_open_cleared gains.now pairs.old }
{
    let leaves = open_leaves(gains);
    clear_leaves(pairs, &leaves);
}
