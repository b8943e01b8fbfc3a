// The logs of several receivers, joined into one day: a contact counts if at least a quorum of them heard it.

#![tactic(auto)]

mod joining;
mod lengths;
mod quorum;
mod refusal;

pub use days::Size;
pub use joining::join;
pub use records::Reason;
pub use refusal::Refusal;
