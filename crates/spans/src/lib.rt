// The spans of a day: who stayed in contact with whom throughout them, the cores on them, and reports and plans as lists of records. Definitions
// and laws alone; there is no code.

#![tactic(auto)]
