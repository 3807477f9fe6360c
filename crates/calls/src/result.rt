// Is it a result: case, number of the pattern (document 01: selection), document (document 01: volume), list.

ghost use Rattle.model.specs.Demands.{ResultAnswered};
ghost use Rattle.calls.specs.Answers.{test_of};

use format::case::Case;
use format::document::Document;
use matching::outcomes::is_result;
use questions::refusal::Refusal;
use refusals::ask_result;
use refusals::numbered::numbered;

// Is the list a result of the pattern in the document: are its nodes, as one list, those at positions 1 to k of some embedding whose
// figures fit? Questions 3 to 8, 10, 17, 12, 11.
pub fn result_call(case: &[u8], number: u64, document: &[u8], list: &[u8]) -> Result<bool, Refusal>
    ensures { ResultAnswered case.now number document.now list.now (test_of result) }
{
    ask_result(case, number, document, list)?;
    let pattern = numbered(&Case::new(case), number);
    Ok(is_result(&pattern, &Document::new(document), list))
}
