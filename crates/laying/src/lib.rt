// The call "lay out a trial".
#![tactic(auto)]

pub mod laid;
