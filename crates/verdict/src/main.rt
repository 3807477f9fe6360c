// The verdict program: a case from standard input, its text on standard output. What it prints is `printing::verdict_text`, and
// `streams::program::print` reads and writes. A failed read or write is told on standard error: the exit status stays 0.
#![tactic(auto)]

ghost use Rattle.std.specs.Prelude.{◌≡◌, take, Err, IfSome, OnOk};
ghost use Rattle.std.specs.Io.KnownBytes.{Appends, Keeps};
ghost use Rattle.streams.specs.declared.trouble.Trouble.TheVariants.{Unreadable};
ghost use Rattle.model.specs.Text.{printed};

use printing::verdict_text;
use std::io::{Read, Write};
use streams::Trouble;
use streams::program::print;

// Reads a case and writes its text.
fn run<R: Read, W: Write>(input: &mut R, output: &mut W) -> Result<(), Trouble>
    ensures told { OnOk result (IfSome (R.remaining input.old)
        (λ xs. Appends (W.contents output.old) (W.contents output.new) (printed (take 65537 xs)))) }
    ensures unread { result ≡ Err Unreadable → Keeps (W.contents output.old) (W.contents output.new) }
{
    print(verdict_text, [0u8; 26308], input, output)
}

fn main(rt: HostRuntime) {
    if let Err(trouble) = run(&mut rt.stdin(), &mut rt.stdout()) {
        let _ = eprintln!(rt; "verdict: {trouble}");
    }
}
