// What the programs that write a case write, at the front of a lent array: the written case's bytes, told as Ok and for standard output, or
// a refusal's line, told as Err and for standard error. The number told is how many bytes.
#![tactic(auto)]

ghost use Rattle.model.specs.Text.{refused_text, upgrade_told, downgrade_told, normalise_told};
ghost use Rattle.questions.specs.Refusal.{number_of};
ghost use Rattle.text.specs.Told.{Filed};
ghost use Rattle.filing.specs.Filed.{Answered};

use moving::downgrade::downgrade_call;
use moving::upgrade::upgrade_call;
use normalising::normalise_call;
use questions::refusal::Refusal;
use text::page::Page;

// A refusal's line, put at the front, and how many bytes it has.
fn refusal_line(refusal: Refusal, out: &mut [u8; 8192]) -> usize
    ensures { Filed (record { stream = 2; bytes = refused_text (number_of refusal) }) out.old out.new (Err result) }
{
    let mut page = Page::new(out);
    page.line(b"refused", refusal.number());
    page.at
}

// Of a call's answer: a refusal's line is put at the front; a written case stands there.
fn tell(written: Result<usize, Refusal>, out: &mut [u8; 8192]) -> Result<usize, usize>
    ensures { Answered written out.old out.new result }
{
    match written {
        Ok(count) => Ok(count),
        Err(refusal) => Err(refusal_line(refusal, out)),
    }
}

// Of an old case from standard input: the set of one that it is.
// Three functions, each with a contract of its own: what they call differs, and nothing else.
pub fn upgrade_told(case: &[u8], out: &mut [u8; 8192]) -> Result<usize, usize>
    ensures { Filed (upgrade_told case.now) out.old out.new result }
{
    tell(upgrade_call(case, out), out)
}

// Of a case from standard input: the old case that a set of one goes back to.
pub fn downgrade_told(case: &[u8], out: &mut [u8; 8192]) -> Result<usize, usize>
    ensures { Filed (downgrade_told case.now) out.old out.new result }
{
    tell(downgrade_call(case, out), out)
}

// Of a case from standard input: the same case in its one way of writing.
pub fn normalise_told(case: &[u8], out: &mut [u8; 8192]) -> Result<usize, usize>
    ensures { Filed (normalise_told case.now) out.old out.new result }
{
    tell(normalise_call(case, out), out)
}
