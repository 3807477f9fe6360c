// What is worked out once a case, in blocks: of each member, with the quick test by it; of the summary and the first pattern, with counts.
#![tactic(auto)]

pub mod judge;
pub mod masks;
pub mod member;
pub mod rows;
pub mod sets;
mod table;
pub mod ways;
