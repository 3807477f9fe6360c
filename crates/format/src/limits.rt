// Limits and record widths, each named once.

// The largest limit of a verdict, the most a tally may come to, and how many callers have one.
pub const MAX_LIMIT: u64 = 1_000_000;

pub const MAX_TALLY: u64 = 1_000_000_000_000;

pub const CALLERS: u64 = 8;

// The most verdicts of one call that strikes: 15 + 14 + .. + 1.
pub const MAX_VERDICTS: u64 = 120;

// The bytes that an answer buffer has at least, and the records that a lent table has at least.
pub const MIN_BUFFER: usize = 8_192;

pub const MIN_TABLE: usize = 1_024;

// The most bytes of a case.
pub const MAX_CASE_BYTES: usize = 65_536;

// The most nodes of a summary, of a pattern and of a document; the most members of a set; the last position; the greatest figure.
pub const MAX_SUMMARY: u64 = 64;

pub const MAX_PATTERN: u64 = 16;

pub const MAX_MEMBERS: u64 = 8;

pub const MAX_DOCUMENT: u64 = 1_024;

pub const MAX_POSITION: usize = 8;

pub const MAX_FIGURE: usize = 2_000;

// Fields of a summary record, a pattern record and a document record.
pub const SUMMARY_WIDTH: usize = 3;

pub const PATTERN_WIDTH: usize = 5;

pub const DOCUMENT_WIDTH: usize = 3;

// Fields of an old pattern record, which stays as it was (document 02: the form of a case before sets).
pub const OLD_WIDTH: usize = 4;

// The most bytes of a case with a set of one: 1 + 3 x 64 fields, twice 1 + 5 x 16, and the set's count.
pub const MAX_MOVED: usize = 712;
