// Nodes at a position: case, number of the pattern (document 01: selection), document (document 01: volume), position, answer buffer.

ghost use Rattle.model.specs.Demands.{NodesAnswered};
ghost use Rattle.calls.specs.Answers.{nodes_of};

use format::case::Case;
use format::document::Document;
use format::write::write_counted;
use matching::outcomes::nodes_at;
use questions::refusal::Refusal;
use refusals::ask_nodes;
use refusals::numbered::numbered;

// The nodes at a position in any result, written ascending after their count to the front of the answer buffer, and how many there are.
// Questions 2 to 8, 10, 17, 12.
pub fn nodes_call(
    case: &[u8],
    number: u64,
    document: &[u8],
    position: u64,
    answer: &mut [u8],
) -> Result<usize, Refusal>
    ensures { NodesAnswered case.now number document.now position answer.old (nodes_of result answer.new) }
{
    ask_nodes(case, number, document, position, answer.len())?;
    let pattern = numbered(&Case::new(case), number);
    let mut nodes = [0u16; 1024];
    let count = nodes_at(
        &pattern,
        &Document::new(document),
        position as usize,
        &mut nodes,
    );
    write_counted(&nodes, count, answer);
    Ok(count)
}
