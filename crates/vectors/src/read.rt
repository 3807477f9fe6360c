// Vectors from standard input: one call's numbers and byte strings after another.

ghost use Rattle.std.specs.Prelude.{◌+◌, ◌*◌, ◌≤◌, length};

use format::field::field;
use questions::numbers::Account;
use std::io::Read;

// The call that a vector is for.
#[derive(Clone, Copy, Debug, PartialEq, Eq)]
pub enum Call {
    Verdict,
    Fits,
    Result,
    Nodes,
    Paths,
    Layout,
    Upgrade,
    Downgrade,
    Minimise,
    Normalise,
}

impl Call {
    // The call with that number; none has 0, which ends the vectors. Normalising has every number that is no other's.
    fn numbered(number: usize) -> Option<Call> {
        match number {
            0 => None,
            1 => Some(Call::Verdict),
            2 => Some(Call::Fits),
            3 => Some(Call::Result),
            4 => Some(Call::Nodes),
            5 => Some(Call::Paths),
            6 => Some(Call::Layout),
            7 => Some(Call::Upgrade),
            8 => Some(Call::Downgrade),
            9 => Some(Call::Minimise),
            _ => Some(Call::Normalise),
        }
    }
}

// The call and its numbers.
#[derive(Clone, Copy)]
pub struct Head {
    pub call: Call,
    pub limit: u64,
    pub account: Account,
    pub number: u64,
    pub position: u64,
    pub length: u64,
}

// A vector: the call, its numbers and its byte strings.
#[derive(Drop)]
pub struct Vector<'a> {
    pub head: Head,
    pub case: &'a [u8],
    pub document: &'a [u8],
    pub list: &'a [u8],
}

// The 64-bit number that begins at byte i, low byte first.
fn number(s: &[u8], i: usize) -> u64
    requires { i + 8 ≤ length s.now }
{
    u64::from_le_bytes([
        s[i],
        s[i + 1],
        s[i + 2],
        s[i + 3],
        s[i + 4],
        s[i + 5],
        s[i + 6],
        s[i + 7],
    ])
}

// The next vector's head, of 52 bytes; none where the input ends before it, or where its call is 0.
fn read_head<R: Read>(input: &mut R) -> Option<Head> {
    let mut bytes = [0u8; 52];
    input.read_exact(&mut bytes).ok()?;
    let call = Call::numbered(field(&bytes, 0))?;
    Some(Head {
        call,
        limit: number(&bytes, 4),
        account: Account {
            tally: number(&bytes, 12),
            caller: number(&bytes, 20),
        },
        number: number(&bytes, 28),
        position: number(&bytes, 36),
        length: number(&bytes, 44),
    })
}

// The next byte string, in the front of the buffer, after its length; none where it is cut short or too long.
fn read_bytes<'a, R: Read>(input: &mut R, buffer: &'a mut [u8]) -> Option<&'a [u8]> {
    let mut size = [0u8; 4];
    input.read_exact(&mut size).ok()?;
    let length = u32::from_le_bytes(size) as usize;
    let bytes = buffer.get_mut(..length)?;
    input.read_exact(bytes).ok()?;
    Some(bytes)
}

// The next vector, with its byte strings in the buffers; none where there is no further one.
pub fn read_vector<'a, R: Read>(
    input: &mut R,
    case: &'a mut [u8],
    document: &'a mut [u8],
    list: &'a mut [u8],
) -> Option<Vector<'a>> {
    Some(Vector {
        head: read_head(input)?,
        case: read_bytes(input, case)?,
        document: read_bytes(input, document)?,
        list: read_bytes(input, list)?,
    })
}
