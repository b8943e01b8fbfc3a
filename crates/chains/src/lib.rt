// Chains of contacts, and the exposure trace of a day: what it is, and how it is worked out. Definitions and laws alone; there is no code here. The crate
// `trace` has the call.

#![tactic(auto)]
