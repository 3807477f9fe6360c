// Document 01's lines, put on a page.

ghost use Rattle.model.specs.Limits.{document_width};
ghost use Rattle.model.specs.Bytes.{document_of, list_of, WholeSection};
ghost use Rattle.model.specs.Text.{first_lines, shown_text};
ghost use Rattle.text.specs.Put.{Room, Put};

use format::limits::DOCUMENT_WIDTH;
use text::page::Page;

// The first two lines: the verdict and tried.
pub fn first_lines(text: &[u8], tried: u64, page: &mut Page)
    requires { Room (first_lines text.now tried) page.old }
    ensures { Put (first_lines text.now tried) page.old page.new }
{
    page.words(text);
    page.line(b"tried", tried);
}

// The text of "not included": the first lines, the document's and the result's.
pub fn shown(tried: u64, document: &[u8], list: &[u8], page: &mut Page)
    requires whole { WholeSection document_width document.now 0 }
    requires room { Room (shown_text tried (document_of document.now) (list_of list.now)) page.old }
    ensures { Put (shown_text tried (document_of document.now) (list_of list.now)) page.old page.new }
{
    first_lines(b"not included", tried, page);
    page.record_lines(document, DOCUMENT_WIDTH);
    page.list_line(b"answer", list, 0, list.len() / 2);
}
