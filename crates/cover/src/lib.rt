// Sets over all members' nodes, and short lists of them. Such a list says of what is offered that at least one of its sets is: that is
// all that is promised of it, so which sets are merged where a list is full is in no contract.
#![tactic(auto)]

pub mod lists;
pub mod offers;
