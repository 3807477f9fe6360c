// What the verdict program prints of a case: the whole text at the front of a lent array.
#![tactic(auto)]

mod lines;

ghost use Rattle.model.specs.Text.{printed};
ghost use Rattle.text.specs.Put.{Room, Put, Printed};
ghost use Rattle.printing.specs.Shown.{ShownWhole, text_of, Tellable, told_text};

use containment::Containment;
use deciding::verdict_call;
use format::field::field;
use format::limits::DOCUMENT_WIDTH;
use format::sections::section_end;
use questions::numbers::Account;
use questions::refusal::Refusal;
use text::page::Page;

// The text of "not included", with the document and the result that an answer buffer shows.
fn shown_text(tried: u64, answer: &[u8], page: &mut Page)
    requires whole { ShownWhole answer.now }
    requires room { Room (text_of tried answer.now) page.old }
    ensures { Put (text_of tried answer.now) page.old page.new }
{
    let end = section_end(answer, 0, DOCUMENT_WIDTH);
    let from = 2 * (end + 1);
    let to = from + 2 * field(answer, end);
    let last = 2 * end;
    lines::shown(tried, &answer[..last], &answer[from..to], page);
}

// The text of an answer, with what the answer buffer shows.
fn answer_text(told: Result<Containment, Refusal>, answer: &[u8], page: &mut Page)
    requires shown { Tellable told answer.now }
    requires room { Room (told_text told answer.now) page.old }
    ensures { Put (told_text told answer.now) page.old page.new }
{
    match told {
        Err(refusal) => page.line(b"refused", refusal.number()),
        Ok(Containment::Contained(tried)) => lines::first_lines(b"included", tried, page),
        Ok(Containment::NotContained(tried)) => shown_text(tried, answer, page),
        Ok(Containment::Stopped(tried)) => lines::first_lines(b"stopped", tried, page),
    }
}

// The text of a case from standard input, with limit 1,000,000, caller 0 and its tally 0, and how many bytes it has.
// An array lent and a count, not a slice: the rest of the array is promised too.
pub fn verdict_text(case: &[u8], out: &mut [u8; 26308]) -> usize
    ensures { Printed (printed case.now) out.old out.new result }
{
    let mut answer = [0u8; 8192];
    let account = Account {
        caller: 0,
        tally: 0,
    };
    let told = verdict_call(case, 1000000, account, &mut answer);
    let mut page = Page::new(out);
    answer_text(told, &answer, &mut page);
    page.at
}
