// What a program reads and writes: its input, read whole, and bytes for one of its two streams. Readers and writers are lent, so that
// contracts can speak of the bytes of those that know them.
#![tactic(auto)]

pub mod program;
#[cfg(test)]
mod tests;
mod trouble;

ghost use Rattle.std.specs.Prelude.{◌≡◌, length, take, IfErr, IfOk, IfSome, OnOk};
ghost use Rattle.std.specs.Counts.{IsPrefixLen};
ghost use Rattle.std.specs.Io.KnownBytes.{Appends, Consumes};
ghost use Rattle.text.specs.Told.{stream_of};
ghost use Rattle.streams.specs.Read.{count_of};
ghost use Rattle.streams.specs.Sent.{Sent, bytes_of};
ghost use Rattle.streams.specs.declared.trouble.Trouble.TheVariants.{Unwritable};

use std::io::{Read, Write};
pub use trouble::{Cut, Trouble};

// Reads until the buffer is full, the input ends or a read fails, which is told from the input's end. The answer is how many bytes stand
// at the front.
pub fn read_all<R: Read>(reader: &mut R, buffer: &mut [u8]) -> Result<usize, Cut>
    ensures front { IsPrefixLen (count_of result) buffer.new }
    ensures taken { Consumes (R.remaining reader.old) (R.remaining reader.new)
        (take (count_of result) buffer.new) }
    ensures whole { IfOk result (λ n. IfSome (R.remaining reader.old)
        (λ xs. take n buffer.new ≡ take (length buffer.new) xs)) }
{
    // `read_exact` does not tell how much it read before the end, and `read_to_end` takes a heap.
    let mut done = 0;
    while done < buffer.len() {
        match reader.read(&mut buffer[done..]) {
            Ok(0) => break,
            Ok(more) => done += more,
            Err(_) => return Err(Cut { count: done }),
        }
    }
    Ok(done)
}

// Writes all of the bytes.
pub fn write_all<W: Write>(bytes: &[u8], output: &mut W) -> Result<(), Trouble>
    ensures ok { OnOk result (Appends (W.contents output.old) (W.contents output.new) bytes.now) }
    ensures err { IfErr result (λ e. e ≡ Unwritable) }
{
    output.write_all(bytes).map_err(|_| Trouble::Unwritable)
}

// Writes all of the bytes to the stream that they are for: standard output has those that are told as Ok, standard error those as Err.
pub fn write_to<W: Write, E: Write>(
    told: Result<&[u8], &[u8]>,
    output: &mut W,
    errors: &mut E,
) -> Result<(), Trouble>
    ensures ok { OnOk result (Sent (stream_of told.entry) (bytes_of told.entry)
        (W.contents output.old) (W.contents output.new) (E.contents errors.old) (E.contents errors.new)) }
    ensures err { IfErr result (λ e. e ≡ Unwritable) }
{
    match told {
        Ok(bytes) => write_all(bytes, output),
        Err(bytes) => write_all(bytes, errors),
    }
}
