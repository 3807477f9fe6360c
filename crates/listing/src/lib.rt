// What the program that strikes prints of a case: the whole text at the front of a lent array.
#![tactic(auto)]

ghost use Rattle.std.specs.Prelude.{IfOk};
ghost use Rattle.model.specs.Text.{order_printed};
ghost use Rattle.text.specs.Put.{Room, Put, Printed};
ghost use Rattle.listing.specs.Order.{OrderHeld, text_of, told_text};

use format::field::field;
use format::limits::PATTERN_WIDTH;
use format::sections::pattern_end;
use questions::numbers::Account;
use questions::refusal::Refusal;
use striking::{Minimised, minimise_call};
use text::page::Page;

// The text of a shortened order that an answer buffer holds: tried, the selection's nodes, and the struck numbers behind it.
fn order(tried: u64, answer: &[u8], page: &mut Page)
    requires held { OrderHeld answer.now }
    requires room { Room (text_of tried answer.now) page.old }
    ensures { Put (text_of tried answer.now) page.old page.new }
{
    page.line(b"tried", tried);
    page.record_lines(answer, PATTERN_WIDTH);
    let end = pattern_end(answer, 0);
    page.list_line(b"struck", answer, end + 1, field(answer, end));
}

// The text of an answer, with what the answer buffer holds.
fn answer_text(told: Result<Minimised, Refusal>, answer: &[u8], page: &mut Page)
    requires held { IfOk told (λ _. OrderHeld answer.now) }
    requires room { Room (told_text told answer.now) page.old }
    ensures { Put (told_text told answer.now) page.old page.new }
{
    match told {
        Ok(struck) => order(struck.tried, answer, page),
        Err(refusal) => page.line(b"refused", refusal.number()),
    }
}

// The text of a case from standard input, with limit 1,000,000, caller 0 and its tally 0, and how many bytes it has.
// An array lent and a count, not a slice: the rest of the array is promised too.
pub fn order_text(case: &[u8], out: &mut [u8; 484]) -> usize
    ensures { Printed (order_printed case.now) out.old out.new result }
{
    let mut answer = [0u8; 8192];
    let account = Account {
        caller: 0,
        tally: 0,
    };
    let told = minimise_call(case, 1000000, account, &mut answer);
    let mut page = Page::new(out);
    answer_text(told, &answer, &mut page);
    page.at
}
