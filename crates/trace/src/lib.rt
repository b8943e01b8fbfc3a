// The exposure trace of a day: whom an index badge can have reached, when first, and through whom. It stands above the log part, and knows nothing of groups.

#![tactic(auto)]

mod refusal;
mod sweeping;
mod tracing;

pub use logs::Reason;
pub use refusal::Refusal;
pub use tracing::trace;
