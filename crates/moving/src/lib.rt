// Moving the filed cases over (document 02, #102): an old case becomes one with a set of one, and a set of one goes back. Any bytes may
// be passed: a call refuses what its questions refuse.
#![tactic(auto)]

pub mod downgrade;
pub mod old;
pub mod refusals;
pub mod upgrade;
pub mod write;
