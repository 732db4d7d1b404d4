// Step lines, read.
//
// A step line is a word, a transaction's number and, for four of the words, a cue. It is read for its form alone:
// whether the numbers are in range is asked later, in the order of the table "What is turned away". Every line of
// bytes is read, and what is no step is none. No public function has a `requires`.
#![tactic(auto)]

mod reading;

pub use reading::{Step, read_step};
