// A lent table of records, as the layout call's answer fills it.

use laying::laid::NodeRecord;

// A node's parent, its summary node, its label and its figure.
#[derive(Clone, Copy)]
pub struct Record {
    pub parent: u16,
    pub at: u16,
    pub label: u16,
    pub figure: u16,
}

impl Record {
    // What stands in a table before anything is written to it.
    pub fn blank() -> Record {
        Record {
            parent: 0xaaaa,
            at: 0xaaaa,
            label: 0xaaaa,
            figure: 0xaaaa,
        }
    }

    // Field after field, low byte first.
    pub fn bytes(&self) -> [u8; 8] {
        let [a, b] = self.parent.to_le_bytes();
        let [c, d] = self.at.to_le_bytes();
        let [e, f] = self.label.to_le_bytes();
        let [g, h] = self.figure.to_le_bytes();
        [a, b, c, d, e, f, g, h]
    }
}

impl From<NodeRecord> for Record {
    fn from(node: NodeRecord) -> Record {
        Record {
            parent: (node.parent.0 % 65536) as u16,
            at: (node.at.0 % 65536) as u16,
            label: node.label,
            figure: node.figure,
        }
    }
}

// The nodes that are laid out go to the table's front.
pub fn fill(table: &mut [Record], nodes: &[NodeRecord]) {
    for (record, node) in table.iter_mut().zip(nodes) {
        *record = Record::from(*node);
    }
}
