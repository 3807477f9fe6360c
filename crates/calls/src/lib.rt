// The calls of document 01 over bytes, each with its whole outcome. Any bytes and any numbers may be passed: a call refuses what
// its questions refuse.
#![tactic(auto)]

pub mod fits;
pub mod nodes;
pub mod paths;
pub mod result;
