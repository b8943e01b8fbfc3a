// Contact logs, and the day that they say, in words that the host lends.
//
// `read` takes a log into day words, `write` takes day words to their tidy log, and `tidy` takes a log to its tidy log; `check_words` is
// the check that every call on words begins with, and `deliver` puts an answer into the buffer that is lent, `put` and `put_record` bytes and
// records into memory of one's own. Nothing here knows of groups.

#![tactic(auto)]

mod columns;
mod day;
mod encoding;
mod pairs;
mod ticks;
mod tidying;
mod writing;

pub use checks::check_words;
pub use days::read;
pub use encoding::{put, put_record};
pub use records::{Accepted, Reason, Record, Refusal};
pub use tidying::tidy;
pub use writing::{deliver, write};
