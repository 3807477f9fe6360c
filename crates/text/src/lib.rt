// Texts for programs to write, put on a page, which is a lent slice and how far text stands in it (`page`: bytes, words and numbers in
// decimal): a line of words and a number (`line`), and lines of fields (`fields`).
#![tactic(auto)]

pub mod fields;
pub mod line;
pub mod page;
