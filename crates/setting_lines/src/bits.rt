// The bits of a load: a word of digits, which may say how they go on up to the code's count, or bits of the generator.
ghost use Rattle.std.specs.Prelude.{◌≡◌, ◌-◌, if◌then◌else◌};
ghost use Rattle.text.specs.Decimal.{is_digit};

use script::arguments::Arguments;
use script::faults::Fault;
use script::noise::Generator;
use text::numbers;

// A code has at most 4,416 bits; one more is too many for each.
pub const ROOM: usize = 4417;

#[derive(Clone, Copy)]
pub enum Bits<'a> {
    // Digits, and what follows them up to the code's count.
    Written(&'a [u8], Follows),
    // As many as the code has, of the generator with this seed.
    Random(u32),
}

#[derive(Clone, Copy)]
pub enum Follows {
    Nothing,
    Zeros,
    Again,
}

impl<'a> Bits<'a> {
    // The bits of a line; no word is no bits.
    pub fn of(mut words: Arguments<'a>) -> Result<Bits<'a>, Fault<'a>> {
        let word = words.word().unwrap_or(b"");
        let bits = if word == b"random".as_slice() {
            Bits::Random(words.number()?)
        } else {
            written(word).ok_or(Fault::NoBits(word))?
        };
        words.end()?;
        Ok(bits)
    }

    // The bits for a code that has `due`, in a buffer whose bits are 0: those that are written where they are more, or nothing follows them.
    pub fn put(self, due: usize, room: &mut [u8; ROOM]) -> &[u8] {
        let count = match self {
            Bits::Written(digits, Follows::Nothing) => digits.len(),
            Bits::Written(digits, _) => digits.len().max(due),
            Bits::Random(_) => due,
        };
        let bits = &mut room[..count.min(ROOM)];
        match self {
            Bits::Written(digits, follows) => {
                fill(bits, digits.iter().map(value));
                if let Follows::Again = follows {
                    repeat(bits, digits.len());
                }
            }
            Bits::Random(seed) => {
                let mut generator = Generator::new(seed);
                for bit in bits.iter_mut() {
                    *bit = (generator.next_u32() / 65536 % 2) as u8;
                }
            }
        }
        bits
    }
}

// A word of digits with what follows them; None where it is none.
fn written<'a>(word: &'a [u8]) -> Option<Bits<'a>> {
    let count = word
        .iter()
        .position(|b| numbers::digit(*b).is_none())
        .unwrap_or(word.len());
    let (digits, end) = word.split_at(count);
    let follows = match end {
        b"" => Follows::Nothing,
        b".." => Follows::Zeros,
        b"*" if count > 0 => Follows::Again,
        _ => return None,
    };
    Some(Bits::Written(digits, follows))
}

// What a digit counts; 0 for any other byte.
fn value(digit: &u8) -> u8
    ensures { result ≡ (if is_digit digit.now then digit.now - 48 else 0) }
{
    numbers::digit(*digit).unwrap_or(0)
}

// As many bits as there is room for.
fn fill<I: Iterator<Item = u8>>(room: &mut [u8], bits: I)
    requires { I.can_next bits }
{
    for (place, bit) in room.iter_mut().zip(bits) {
        *place = bit;
    }
}

// The first n bits over and over: what stands is copied behind itself, so that each digit is counted once.
fn repeat(bits: &mut [u8], n: usize) {
    let mut done = n.min(bits.len());
    // Each turn doubles what stands: from one bit on thirteen fill the room.
    for _ in 0..13 {
        let more = done.min(bits.len() - done);
        bits.copy_within(0..more, done);
        done += more;
    }
}
