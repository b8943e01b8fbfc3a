// The check of words that every call on words begins with, and rows in an array.
//
// `check_words` says whether words are a day. `copy_tick` copies the words of one tick over rows, and `united` has every badge that is in a row.

#![tactic(auto)]

mod checking;
mod comparing;
mod rows;

pub use checking::check_words;
pub use rows::{copy_tick, united};
