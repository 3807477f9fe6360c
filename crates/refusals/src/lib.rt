// What each of document 01's calls asks, in the call's own order: the first question whose answer is no refuses it. Any bytes and any
// numbers may be asked about. The questions on a document, on lists and on a pattern's number, which only some calls ask, are here.
#![tactic(auto)]

ghost use Rattle.std.specs.Prelude.{◌≡◌};
ghost use Rattle.model.specs.Questions.{refusal, charged_questions, verdict_refusal, minimise_refusal, fits_refusal, result_refusal, nodes_refusal, paths_refusal, layout_refusal};
ghost use Rattle.questions.specs.Refusal.{asked};

use document::ask_document;
use embedding::is_embedding_list;
use format::case::Case;
use format::document::Document;
use format::limits::MAX_VERDICTS;
use list::result_in_range;
use numbered::{pattern_given, position_given};
use questions::ask_case;
use questions::numbers::{Account, buffer_large_enough, limit_in_range, table_large_enough};
use questions::refusal::{Refusal, hold};

pub mod document;
pub mod embedding;
pub mod list;
pub mod numbered;

// After the limit, of a call that goes to its caller's own tally and tries at most `most`: 2 to 9, with 16 just before 9.
fn ask_charged(b: &[u8], most: u64, account: Account, buffer: usize) -> Result<(), Refusal>
    ensures { asked result ≡ refusal (charged_questions b.now most account.caller account.tally buffer) }
{
    hold(buffer_large_enough(buffer), Refusal::Room)?;
    ask_case(b)?;
    hold(account.caller_in_range(), Refusal::Caller)?;
    hold(account.tally_in_range(most), Refusal::Tally)
}

// Verdict: 1 to 9; it tries at most the limit.
pub fn ask_verdict(b: &[u8], limit: u64, account: Account, buffer: usize) -> Result<(), Refusal>
    ensures { asked result ≡ verdict_refusal b.now limit account.caller account.tally buffer }
{
    hold(limit_in_range(limit), Refusal::Limit)?;
    ask_charged(b, limit, account, buffer)
}

// Striking out: as the verdict, with 120 times the limit in 9, which is asked for only where question 1 has accepted the limit.
pub fn ask_minimise(b: &[u8], limit: u64, account: Account, buffer: usize) -> Result<(), Refusal>
    ensures { asked result ≡ minimise_refusal b.now limit account.caller account.tally buffer }
{
    hold(limit_in_range(limit), Refusal::Limit)?;
    ask_charged(b, MAX_VERDICTS * limit, account, buffer)
}

// Fits: 3 to 8, 10, 17, which every call with a document asks of it and of its case.
pub fn ask_fits(b: &[u8], w: &[u8]) -> Result<(), Refusal>
    ensures { asked result ≡ fits_refusal b.now w.now }
{
    ask_case(b)?;
    ask_document(w)
}

// Is it a result: 3 to 8, 10, 17, 12, 11.
pub fn ask_result(b: &[u8], number: u64, w: &[u8], r: &[u8]) -> Result<(), Refusal>
    ensures { asked result ≡ result_refusal b.now number w.now r.now }
{
    ask_fits(b, w)?;
    let case = Case::new(b);
    let document = Document::new(w);
    hold(pattern_given(&case, number), Refusal::PatternNumber)?;
    hold(
        result_in_range(&case, number, &document, r),
        Refusal::ResultList,
    )
}

// Nodes at a position: 2 to 8, 10, 17, 12.
pub fn ask_nodes(
    b: &[u8],
    number: u64,
    w: &[u8],
    position: u64,
    buffer: usize,
) -> Result<(), Refusal>
    ensures { asked result ≡ nodes_refusal b.now number w.now position buffer }
{
    hold(buffer_large_enough(buffer), Refusal::Room)?;
    ask_fits(b, w)?;
    let case = Case::new(b);
    hold(
        position_given(&case, number, position),
        Refusal::PatternNumber,
    )
}

// Paths of each node: 3 to 8, 12.
pub fn ask_paths(b: &[u8], number: u64) -> Result<(), Refusal>
    ensures { asked result ≡ paths_refusal b.now number }
{
    ask_case(b)?;
    let case = Case::new(b);
    hold(pattern_given(&case, number), Refusal::PatternNumber)
}

// Lay out a canonical document: 2 to 8, 12, 13.
pub fn ask_layout(b: &[u8], number: u64, l: &[u8], table: usize) -> Result<(), Refusal>
    ensures { asked result ≡ layout_refusal b.now number l.now table }
{
    hold(table_large_enough(table), Refusal::Room)?;
    ask_case(b)?;
    let case = Case::new(b);
    hold(pattern_given(&case, number), Refusal::PatternNumber)?;
    hold(is_embedding_list(&case, number, l), Refusal::Embedding)
}
