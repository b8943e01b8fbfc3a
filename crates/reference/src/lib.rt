// The second implementation of documents 01 and 02, written plainly and slowly from their words alone, for tests to compare the product with. Here
// too is what a test program wants beside it: random logs and counts of cases.

#![tactic(auto)]

mod bits;
mod bytes;
mod circles;
mod day;
mod judging;
mod limits;
mod lines;
mod peeling;
mod plans;
mod random;
mod random_logs;
mod reports;
mod tally;
mod tidying;
mod words;

pub use bytes::{Bytes, FILLER, ROOM};
pub use day::{Day, Span};
pub use judging::{Accepted, Judgement, Refusal, Why, judge};
pub use limits::MAX_WORDS;
pub use lines::{Text, listing};
pub use peeling::core_numbers;
pub use plans::best_plan;
pub use random::{Random, SEED};
pub use random_logs::{Size, random_log};
pub use reports::report;
pub use tally::Tally;
pub use tidying::tidy_log;
pub use words::{PATTERN, word_after};
