// The words of the refusals.
use codes::refusal::Refusal;
use text::numbers::to_natural;
use text::words::Words;

// What `refusals` prints. A row with calls behind its number is for them alone.
pub const TABLE: &str = "1: the cell parameter is above 127, or the code group above 31
2: the burst type is not 1, 2 or 3
3: the spreading factor is not 1, 2, 4, 8 or 16
4: the code's index is not below its spreading factor
5: a gain is not 1 to 4095
6: the code is related to an open code
7: the code is not open
8: the count of bits is not 2(F1+F2)/Q, of field lengths F1 and F2
9: a bit is neither 0 nor 1
10: a slot is under way
11: no slot is under way
12: the re and the im buffer differ in length
13: the burst type is not 1
14: the case is not 1 or 2
15: the frame is not 1 or 2, the half is above 1, or it is 1 in case 1
16 read: the count is no multiple of 16 from 16 to 1104
16 read-sync: the count is not 256
16 find: the count is not 256 to 5120
16 element scrambling-chip primary-chip: the chip is past the code's end
16 secondary-chip: no such sync code, or the chip is past its end
16 secondary: no such sync code; there are 0, 1, 3 to 6, 8, 10, 12 to 15
16: the length, chip or sync code is not one that the call takes
17: a component is outside -100000 to 100000
18: an answer or scratch buffer is too short
19: no group, frame and half fits the burst better than all others
";

// The words of a refusal of this call, from their colon on.
pub fn words(refusal: Refusal, call: &[u8]) -> &'static str {
    for row in TABLE.lines() {
        if let Some(colon) = row.find(':') {
            if applies(&row.as_bytes()[..colon], refusal, call) {
                return row.get(colon..).unwrap_or("");
            }
        }
    }
    ""
}

// Whether a row's begin is for this refusal and this call: it has the number, and the call or none.
fn applies(begin: &[u8], refusal: Refusal, call: &[u8]) -> bool {
    let mut words = Words::new(begin);
    if words.next().and_then(to_natural) != Some(refusal.number()) {
        return false;
    }
    match words.next() {
        None => true,
        Some(first) => first == call || words.any(|word| word == call),
    }
}
