// Bytes in and out. Given data stay bytes: 16-bit fields, and the records of a summary, a pattern, a document and a tree that may be
// either; lists; the writers.
#![tactic(auto)]

pub mod case;
pub mod document;
pub mod field;
pub mod labels;
pub mod limits;
pub mod list;
pub mod members;
pub mod nodes;
pub mod pattern;
pub mod records;
pub mod sections;
pub mod set;
pub mod summary;
pub mod write;
