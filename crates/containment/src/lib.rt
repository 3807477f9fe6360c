// Embeddings of the first pattern into the summary (document 01: placements), stepped and judged by masks, nothing laid out.
#![tactic(auto)]

mod skip;
mod steps;
pub mod verdict;

// How many embeddings may still be tried, and how many were and passed.
#[derive(Clone, Copy, Debug, PartialEq, Eq)]
pub struct Budget {
    pub left: u64,
    pub tried: u64,
}

// Why trials end early, with how many were tried: one failed, or the limit was met with more to try.
#[derive(Clone, Copy, Debug, PartialEq, Eq)]
pub enum Halt {
    Failed(u64),
    Stopped(u64),
}

// How far the trials have come, unless they ended early.
pub type Run = Result<Budget, Halt>;

// Document 01's verdict, with how many were tried: included, not included, stopped.
#[derive(Clone, Copy, Debug, PartialEq, Eq)]
pub enum Containment {
    Contained(u64),
    NotContained(u64),
    Stopped(u64),
}
