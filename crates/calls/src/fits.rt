// Fits: case, document.

ghost use Rattle.model.specs.Demands.{FitsAnswered};
ghost use Rattle.calls.specs.Answers.{test_of};

use format::document::Document;
use format::summary::Summary;
use questions::refusal::Refusal;
use refusals::ask_fits;
use strong::outline::Outline;

// Does the document (document 01: volume) fit the summary of the case (document 01: outline)?
pub fn fits_call(case: &[u8], document: &[u8]) -> Result<bool, Refusal>
    ensures { FitsAnswered case.now document.now (test_of result) }
{
    ask_fits(case, document)?;
    let outline = Outline::new(Summary::new(case));
    Ok(fitting::fits(&outline, &Document::new(document)))
}
