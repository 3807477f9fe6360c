// Why a call is refused: the question whose answer is no.

ghost use Rattle.std.specs.Prelude.{◌≡◌, if◌then◌else◌};
ghost use Rattle.questions.specs.Refusal.{number_of};

// One for each question, with its number in documents 01 and 02. Room is what the answer buffer or the lent table has, the pattern's
// number is asked about with a position where one is given, and the old form is what a case goes back to.
#[derive(Clone, Copy, Debug, PartialEq, Eq)]
pub enum Refusal {
    Limit = 1,
    Room = 2,
    Bytes = 3,
    Counts = 4,
    SummaryRecords = 5,
    Siblings = 6,
    PatternRecords = 7,
    Positions = 8,
    Tally = 9,
    Document = 10,
    ResultList = 11,
    PatternNumber = 12,
    Embedding = 13,
    SetCount = 14,
    OldForm = 15,
    Caller = 16,
    Figure = 17,
}

impl Refusal {
    // Its question's number.
    pub fn number(self) -> u64
        ensures { result ≡ number_of self }
    {
        self as u64
    }
}

// A question: what is asked holds, or the call is refused by it.
pub fn hold(yes: bool, or: Refusal) -> Result<(), Refusal>
    ensures { result ≡ (if yes then Ok tt else Err or) }
{
    if yes { Ok(()) } else { Err(or) }
}
