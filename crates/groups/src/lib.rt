// The groups of a day: who stayed in contact with whom throughout a span of ticks. It uses what the log part guarantees of day words.
//
// Each call takes day words and a set of badges under review: `core_numbers` with a span to the core number of each badge, `report` with thresholds to
// the report of the day's groups that meet them, and `plan` with a query and a number of parts to the plan of the shift around the query.
// `set_bytes` says how many bytes a set has in reports and plans of so many badges.

#![tactic(auto)]

mod circling;
mod day;
mod encoding;
mod form;
mod keeping;
mod kept;
mod lines;
mod numbers;
mod planning;
mod refusal;
mod reporting;
mod reviewing;
mod rows;
mod scoring;
mod writing;

pub use form::set_bytes;
pub use logs::Reason;
pub use numbers::core_numbers;
pub use planning::plan;
pub use refusal::Refusal;
pub use reporting::report;
pub use thresholds::Thresholds;
