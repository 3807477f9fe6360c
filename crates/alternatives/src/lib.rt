// Sets over all members' nodes that are offered however open nodes are placed: their lists and table, and whether all completions pass.
#![tactic(auto)]

mod fill;
mod join;
pub mod judges;
pub mod members;
pub mod open;
pub mod partial;
pub mod table;
