// The innermost core of one graph that contains a query: that of the highest order in a range. The graph is given as one row a badge.
//
// `highest` and `highest_core` count, for all badges at once, in how many rows each badge is, while the order rises; for symmetric rows these are the
// degrees. `highest_core` takes the rows by value, and gives them back.

#![tactic(auto)]

mod lanes;
mod rising;

pub use rising::{Core, Found, highest, highest_core};
