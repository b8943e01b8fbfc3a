// The cores of one graph, given as one row a badge: row u has the neighbours of badge u.
//
// `peel` takes rows to those of a core, with its members and their least degree, and `core_numbers` peels at rising orders, each among the
// members that the last left.

#![tactic(auto)]

mod numbering;
mod peeling;

pub use numbering::core_numbers;
pub use peeling::{Peeled, peel};
