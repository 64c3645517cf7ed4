// The records of a plan, one word each: Q,K,G.
use bench::Channel;
use script::arguments::Arguments;
use script::faults::Fault;
use text::numbers::to_natural;

// At most 16 codes can be open together, so the first 17 records decide.
const DECIDING: usize = 17;

// The records that decide: the first `count` entries. No heap, so they stand in an array.
#[derive(Clone, Copy)]
pub struct Plan {
    first: [Channel; DECIDING],
    count: usize,
}

impl Plan {
    pub fn of<'a>(records: Arguments<'a>) -> Result<Plan, Fault<'a>> {
        let mut first = [Channel {
            q: 0,
            k: 0,
            gain: 0,
        }; DECIDING];
        let mut count = 0;
        for word in records.words() {
            let record = record(word).ok_or(Fault::NoRecord(word))?;
            if let Some(place) = first.get_mut(count) {
                *place = record;
                count += 1;
            }
        }
        Ok(Plan { first, count })
    }

    pub fn records(&self) -> &[Channel] {
        self.first.get(..self.count).unwrap_or(&[])
    }
}

// A comma more than two is in the last field, which is no number then.
fn record(word: &[u8]) -> Option<Channel> {
    let mut fields = word.splitn(3, |b| *b == b',').map(to_natural);
    Some(Channel {
        q: fields.next()??,
        k: fields.next()??,
        gain: fields.next()??,
    })
}
