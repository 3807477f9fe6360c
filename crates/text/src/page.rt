// A page: a lent slice and how far text stands in it. Each method puts its text behind what stands there.

ghost use Rattle.std.specs.Prelude.{[], ◌∷◌, ◌≡◌, ◌<◌};
ghost use Rattle.model.specs.Text.{digit as digit_of, decimal, number as number_of};
ghost use Rattle.text.specs.Put.{Room, Put};

#[derive(Drop)]
// No `write!`: its Result can't be shown to be Ok, and the texts are promised without a branch.
pub struct Page<'a> {
    pub out: &'a mut [u8],
    pub at: usize,
}

impl<'a> Page<'a> {
    // A page on which text goes to the slice's front.
    pub fn new(out: &'a mut [u8]) -> Page<'a>
        ensures lent { result.out.ghost_name ≡ out.entry.ghost_name }
        ensures bytes { result.out.now ≡ out.old }
        ensures front { result.at ≡ 0 }
    {
        Page { out, at: 0 }
    }

    // One byte.
    pub fn put(&mut self, byte: u8)
        requires { Room (byte ∷ []) self.old }
        ensures { Put (byte ∷ []) self.old self.new }
    {
        self.out[self.at] = byte;
        self.at += 1;
    }

    // A text as it is.
    pub fn word(&mut self, text: &[u8])
        requires { Room text.now self.old }
        ensures { Put text.now self.old self.new }
    {
        let end = self.at + text.len();
        self.out[self.at..end].copy_from_slice(text);
        self.at = end;
    }

    // A number in decimal.
    // A recursion: it is the definition `decimal`.
    pub fn digits(&mut self, n: u64)
        requires { Room (decimal n) self.old }
        ensures { Put (decimal n) self.old self.new }
    {
        if n >= 10 {
            self.digits(n / 10);
        }
        self.put(digit(n % 10));
    }

    // A number after a space.
    pub fn number(&mut self, n: u64)
        requires { Room (number_of n) self.old }
        ensures { Put (number_of n) self.old self.new }
    {
        self.put(b' ');
        self.digits(n);
    }
}

// The code of a digit.
fn digit(d: u64) -> u8
    requires { d < 10 }
    ensures { result ≡ digit_of d }
{
    48 + d as u8
}
