// What is written of a node, as one number: comparing two such numbers is comparing depth, label, edge, position and figure in turn.

ghost use Rattle.std.specs.Prelude.{◌≡◌, ◌<◌};
ghost use Rattle.normalising.specs.Keys.{entry_of};

use std::marker::Model;

// Where depth, label, edge and position begin in the number; the figure stands lowest. Depths and positions take 8 bits, the others 16.
const DEPTH: u64 = 72_057_594_037_927_936;

const LABEL: u64 = 1_099_511_627_776;

const EDGE: u64 = 16_777_216;

const POSITION: u64 = 65_536;

// One number, not a field for each: rows of entries are moved and compared by one word each.
#[derive(Clone, Copy)]
pub struct Entry {
    key: u64,
}

impl Model for Entry {
    ghost use Rattle.model.specs.Normal.{Entry};
    ghost use Rattle.normalising.specs.Keys.{entry_of};
    ghost use Rattle.normalising.specs.Back.{inside_of, given_back};

    ghost Value = { Entry };

    ghost view = { λ e. entry_of e.key };

    ghost inverse = { inside_of };

    ghost inverse_ok = { λ e _. given_back e };
}

impl Entry {
    // The entry of these five.
    pub fn new(depth: u16, label: u16, edge: u16, position: u16, figure: u16) -> Entry
        requires { (depth < 256) × (position < 256) }
        ensures { result ≡ record { depth = depth; label = label; edge = edge; position = position; figure = figure } }
    {
        Entry {
            key: u64::from(depth) * DEPTH
                + u64::from(label) * LABEL
                + u64::from(edge) * EDGE
                + u64::from(position) * POSITION
                + u64::from(figure),
        }
    }

    // The number itself.
    pub fn key(self) -> u64
        ensures { entry_of result ≡ self }
    {
        self.key
    }

    pub fn depth(self) -> u16
        ensures { (result ≡ self.depth) × (result < 256) }
    {
        (self.key / DEPTH) as u16
    }

    pub fn label(self) -> u16
        ensures { result ≡ self.label }
    {
        (self.key / LABEL % 65536) as u16
    }

    pub fn edge(self) -> u16
        ensures { result ≡ self.edge }
    {
        (self.key / EDGE % 65536) as u16
    }

    pub fn position(self) -> u16
        ensures { result ≡ self.position }
    {
        (self.key / POSITION % 256) as u16
    }

    pub fn figure(self) -> u16
        ensures { result ≡ self.figure }
    {
        (self.key % 65536) as u16
    }
}
