// What a vector's line is made of: words, numbers and the hash of a buffer or table afterwards. A failed write is not told: the lines are
// compared with the reference's, and one that is missing or cut shows.

use crate::table::Record;
use questions::refusal::Refusal;

// FNV-1a of no bytes.
const HASH_OF_NOTHING: u64 = 14_695_981_039_346_656_037;

// 2^40 + 435.
const PRIME: u64 = 1_099_511_628_211;

// FNV-1a, some bytes further.
fn hash_on(hash: u64, bytes: &[u8]) -> u64 {
    bytes
        .iter()
        .fold(hash, |h, byte| (h ^ u64::from(*byte)).wrapping_mul(PRIME))
}

// The length and the hash of a buffer that was lent, and the line's end.
pub fn buffer(rt: &impl Print, bytes: &[u8]) {
    let length = bytes.len();
    let hash = hash_on(HASH_OF_NOTHING, bytes);
    let _ = println!(rt; " length {length} hash {hash:016x}");
}

// The same of a table, whose records are hashed field by field, low byte first.
pub fn table(rt: &impl Print, records: &[Record]) {
    let length = records.len();
    let hash = records
        .iter()
        .fold(HASH_OF_NOTHING, |h, r| hash_on(h, &r.bytes()));
    let _ = println!(rt; " length {length} hash {hash:016x}");
}

// The number of the refusal, or 0, and what the call answers, or 0.
pub fn parts(answer: Result<u64, Refusal>) -> (u64, u64) {
    match answer {
        Ok(value) => (0, value),
        Err(refusal) => (refusal.number(), 0),
    }
}
