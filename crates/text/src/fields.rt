// 16-bit fields of a slice as numbers, each after a space: a list in a line of its own, and the records of a section, a line each.

ghost use Rattle.std.specs.Prelude.{◌++◌, ◌+◌, ◌*◌, ◌≤◌, ◌<◌, length};
ghost use Rattle.model.specs.Bytes.{field as field_of, fields_at, WholeSection};
ghost use Rattle.model.specs.Text.{ascii, numbers as numbers_of, line as line_of};
ghost use Rattle.text.specs.Put.{Room, Put};
ghost use Rattle.text.specs.Records.{record_line, record_lines};

use crate::page::Page;
use format::field::field;

impl Page<'_> {
    // n fields from field `from` on.
    fn fields(&mut self, b: &[u8], from: usize, n: usize)
        requires inside { 2 * (from + n) ≤ length b.now }
        requires room { Room (numbers_of (fields_at b.now from n)) self.old }
        ensures { Put (numbers_of (fields_at b.now from n)) self.old self.new }
    {
        for i in 0..n {
            self.number(field(b, from + i) as u64);
        }
    }

    // Such fields, which end their line.
    fn last_fields(&mut self, b: &[u8], from: usize, n: usize)
        requires inside { 2 * (from + n) ≤ length b.now }
        requires room { Room (numbers_of (fields_at b.now from n) ++ ascii "\n") self.old }
        ensures { Put (numbers_of (fields_at b.now from n) ++ ascii "\n") self.old self.new }
    {
        self.fields(b, from, n);
        self.put(b'\n');
    }

    // Words and such fields.
    pub fn list_line(&mut self, text: &[u8], b: &[u8], from: usize, n: usize)
        requires inside { 2 * (from + n) ≤ length b.now }
        requires room { Room (line_of text.now (fields_at b.now from n)) self.old }
        ensures { Put (line_of text.now (fields_at b.now from n)) self.old self.new }
    {
        self.word(text);
        self.last_fields(b, from, n);
    }

    // The line of record i of the section at the front, whose records have that width: the node's number, then its record's fields.
    fn record_line(&mut self, b: &[u8], width: usize, i: usize)
        requires whole { WholeSection width b.now 0 }
        requires inside { i < field_of b.now 0 }
        requires room { Room (record_line width b.now i) self.old }
        ensures { Put (record_line width b.now i) self.old self.new }
    {
        self.word(b"node");
        self.number(i as u64);
        self.last_fields(b, 1 + width * i, width);
    }

    // The lines of all its records.
    // Bytes and a width, not a `Document` or a `Pattern`: the lines of both are one function.
    pub fn record_lines(&mut self, b: &[u8], width: usize)
        requires whole { WholeSection width b.now 0 }
        requires room { Room (record_lines width b.now) self.old }
        ensures { Put (record_lines width b.now) self.old self.new }
    {
        for i in 0..field(b, 0) {
            self.record_line(b, width, i);
        }
    }
}
