// The questions on numbers alone: 1, 2, 16 and 9.

ghost use Rattle.std.specs.Prelude.{◌≡◌};
ghost use Rattle.model.specs.Questions.{limit_in_range, buffer_large_enough, table_large_enough, caller_in_range, tally_in_range};

use crate::rules::between;
use format::limits::{CALLERS, MAX_LIMIT, MAX_TALLY, MIN_BUFFER, MIN_TABLE};

// 1. Is the limit 1 to 1,000,000?
pub fn limit_in_range(limit: u64) -> bool
    ensures { result ≡ limit_in_range limit }
{
    between(1, MAX_LIMIT, limit)
}

// 2. Has the answer buffer 8,192 bytes or more? This and the next are two functions, since each answers its own definition: one, given the
// bound, would be the comparison alone.
pub fn buffer_large_enough(bytes: usize) -> bool
    ensures { result ≡ buffer_large_enough bytes }
{
    MIN_BUFFER <= bytes
}

// 2. Has the lent table 1,024 records or more?
pub fn table_large_enough(records: usize) -> bool
    ensures { result ≡ table_large_enough records }
{
    MIN_TABLE <= records
}

// Whose tally a call goes to, and what it has come to.
#[derive(Clone, Copy)]
pub struct Account {
    pub caller: u64,
    pub tally: u64,
}

impl Account {
    // 16. Is the caller 0 to 7?
    pub fn caller_in_range(self) -> bool
        ensures { result ≡ caller_in_range self.caller }
    {
        self.caller < CALLERS
    }

    // 9. Is the tally plus the most that may be tried at most 1,000,000,000,000? The sum itself could wrap.
    pub fn tally_in_range(self, most: u64) -> bool
        ensures { result ≡ tally_in_range self.tally most }
    {
        most <= MAX_TALLY && self.tally <= MAX_TALLY - most
    }
}
