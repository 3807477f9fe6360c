// The questions on a document: 10, and 17 right after it. Before 10 a parent may be any number.

ghost use Rattle.std.specs.Prelude.{◌≡◌, ◌<◌, length};
ghost use Rattle.model.specs.Bytes.{is_whole_document};
ghost use Rattle.model.specs.Questions.{document_record_kept, document_kept, document_figures, refusal, document_questions};
ghost use Rattle.questions.specs.Refusal.{asked};
ghost use Rattle.refusals.specs.Records.{records_kept};

use format::document::Document;
use format::field::field;
use format::limits::{DOCUMENT_WIDTH, MAX_DOCUMENT};
use format::nodes::DocumentNode;
use questions::refusal::{Refusal, hold};
use questions::rules::{between, figure_in_range, parent_rule};

// The document is whole, nothing after. Its count is read only where it is whole.
pub fn document_whole(w: &[u8]) -> bool
    ensures { result ≡ is_whole_document w.now }
{
    1 < w.len() && w.len() == 2 * (1 + DOCUMENT_WIDTH * field(w, 0))
}

// Record i keeps the rules for parent and label.
pub fn document_record_kept(w: &Document, i: DocumentNode) -> bool
    requires { i.0 < length w.now }
    ensures { result ≡ document_record_kept w.now i.0 }
{
    parent_rule(i.0, w.parent(i).0) && 0 < w.label(i)
}

// There are 1 to 1,024 records, and each keeps the rules.
fn records_kept(w: &Document) -> bool
    ensures { result ≡ records_kept w.now }
{
    between(1, MAX_DOCUMENT, w.count() as u64)
        && (0..w.count()).all(|i| document_record_kept(w, DocumentNode(i)))
}

// 10. Is the document whole, nothing after, with 1 to 1,024 nodes, parents by the rule and labels not 0?
pub fn document_kept(w: &[u8]) -> bool
    ensures { result ≡ document_kept w.now }
{
    document_whole(w) && records_kept(&Document::new(w))
}

// 17. Is every figure at most 2,000?
pub fn figures_in_range(w: &Document) -> bool
    ensures { result ≡ document_figures w.now }
{
    (0..w.count()).all(|i| figure_in_range(usize::from(w.figure(DocumentNode(i)))))
}

// 10 and 17, which every call asks of its document.
pub fn ask_document(w: &[u8]) -> Result<(), Refusal>
    ensures { asked result ≡ refusal (document_questions w.now) }
{
    hold(document_kept(w), Refusal::Document)?;
    hold(figures_in_range(&Document::new(w)), Refusal::Figure)
}
