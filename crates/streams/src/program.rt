// A program reads a case, and writes what is told of it.

ghost use Rattle.std.specs.Prelude.{◌≡◌, ℕ, List, take, Err, IfSome, OnOk};
ghost use Rattle.std.specs.Io.KnownBytes.{Appends, Keeps};
ghost use Rattle.model.specs.Text.{Told};
ghost use Rattle.streams.specs.Sent.{Sent};
ghost use Rattle.streams.specs.Tells.{StaysInside, Tells, PrintsInside, Prints};
ghost use Rattle.streams.specs.declared.trouble.Trouble.TheVariants.{Unreadable};

use crate::{Trouble, read_all, write_to};
use std::convert::AsSlice;
use std::io::{Read, Write, sink};

// Reads a case and writes what `tell` puts to the front of `text`. One byte more than a case may have is read, so that a longer one is
// refused and not cut.
pub fn file<
    T: AsSlice<u8> + Drop,
    F: FnOnce(&[u8], &mut T) -> Result<usize, usize>,
    R: Read,
    W: Write,
    E: Write,
>(tell: F, mut text: T, input: &mut R, output: &mut W, errors: &mut E) -> Result<(), Trouble>
    requires callable { F.IsAlwaysCallable tell }
    requires inside { StaysInside (F.post tell) T.items }
    ensures told { (told : List ℕ → Told) → Tells (F.post tell) T.items told → OnOk result (IfSome (R.remaining input.old)
        (λ xs. Sent (told (take 65537 xs)).stream (told (take 65537 xs)).bytes
        (W.contents output.old) (W.contents output.new) (E.contents errors.old) (E.contents errors.new))) }
    ensures unread { result ≡ Err Unreadable →
        Keeps (W.contents output.old) (W.contents output.new) × Keeps (E.contents errors.old) (E.contents errors.new) }
{
    let mut case = [0u8; 65537];
    let count = read_all(input, &mut case)?;
    let told = tell(&case[..count], &mut text);
    let text = text.as_slice();
    match told {
        Ok(end) => write_to(Ok(&text[..end]), output, errors),
        Err(end) => write_to(Err(&text[..end]), output, errors),
    }
}

// Reads a case and writes the text of it, which `text_of` puts to the front of `text`.
pub fn print<T: AsSlice<u8> + Drop, F: FnOnce(&[u8], &mut T) -> usize, R: Read, W: Write>(
    text_of: F,
    text: T,
    input: &mut R,
    output: &mut W,
) -> Result<(), Trouble>
    requires callable { F.IsAlwaysCallable text_of }
    requires inside { PrintsInside (F.post text_of) T.items }
    ensures told { (printed : List ℕ → List ℕ) → Prints (F.post text_of) T.items printed → OnOk result (IfSome (R.remaining input.old)
        (λ xs. Appends (W.contents output.old) (W.contents output.new) (printed (take 65537 xs)))) }
    ensures unread { result ≡ Err Unreadable → Keeps (W.contents output.old) (W.contents output.new) }
{
    file(
        |case: &[u8], out: &mut T| Ok(text_of(case, out)),
        text,
        input,
        output,
        &mut sink(),
    )
}
