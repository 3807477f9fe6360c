// The program `normalise`: a case from standard input, the same case in its one way of writing on standard output; or a refusal on
// standard error. What it writes, and to which stream, is `filing::normalise_told`, and `streams::program::file` reads and writes. A failed
// read or write is told on standard error: the exit status stays 0.
#![tactic(auto)]

ghost use Rattle.std.specs.Prelude.{◌≡◌, take, Err, IfSome, OnOk};
ghost use Rattle.std.specs.Io.KnownBytes.{Keeps};
ghost use Rattle.streams.specs.Sent.{Sent};
ghost use Rattle.streams.specs.declared.trouble.Trouble.TheVariants.{Unreadable};
ghost use Rattle.model.specs.Text.{normalise_told};

use filing::normalise_told;
use std::io::{Read, Write};
use streams::Trouble;
use streams::program::file;

// Reads a case and writes what is told of it to the stream that it is told for.
fn run<R: Read, W: Write, E: Write>(
    input: &mut R,
    output: &mut W,
    errors: &mut E,
) -> Result<(), Trouble>
    ensures told { OnOk result (IfSome (R.remaining input.old) (λ xs.
        let told = normalise_told (take 65537 xs) in Sent told.stream told.bytes
        (W.contents output.old) (W.contents output.new) (E.contents errors.old) (E.contents errors.new))) }
    ensures unread { result ≡ Err Unreadable →
        Keeps (W.contents output.old) (W.contents output.new) × Keeps (E.contents errors.old) (E.contents errors.new) }
{
    file(normalise_told, [0u8; 8192], input, output, errors)
}

fn main(rt: HostRuntime) {
    if let Err(trouble) = run(&mut rt.stdin(), &mut rt.stdout(), &mut rt.stderr()) {
        let _ = eprintln!(rt; "normalise: {trouble}");
    }
}
