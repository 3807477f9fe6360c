// Matching tables: which pattern nodes stand at which node of a tree. The tree is a document or a summary read as one.
#![tactic(auto)]

mod making;
pub mod masks;
pub mod outcomes;
mod sets;
mod tables;
mod tree;
mod wanted;
