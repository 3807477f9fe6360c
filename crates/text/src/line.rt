// A line: words, a number after a space, a newline.

ghost use Rattle.std.specs.Prelude.{[], ◌∷◌, ◌++◌};
ghost use Rattle.model.specs.Text.{ascii, number as number_of, line as line_of};
ghost use Rattle.text.specs.Put.{Room, Put};

use crate::page::Page;

impl Page<'_> {
    // Words alone.
    pub fn words(&mut self, text: &[u8])
        requires { Room (line_of text.now []) self.old }
        ensures { Put (line_of text.now []) self.old self.new }
    {
        self.word(text);
        self.put(b'\n');
    }

    // A number, which ends its line.
    pub fn last(&mut self, n: u64)
        requires { Room (number_of n ++ ascii "\n") self.old }
        ensures { Put (number_of n ++ ascii "\n") self.old self.new }
    {
        self.number(n);
        self.put(b'\n');
    }

    // Words and a number.
    pub fn line(&mut self, text: &[u8], n: u64)
        requires { Room (line_of text.now (n ∷ [])) self.old }
        ensures { Put (line_of text.now (n ∷ [])) self.old self.new }
    {
        self.word(text);
        self.last(n);
    }
}
