// What the calls promise as a whole, proved of them, and the substitutes that keep no such promise, refuted. There is no code.

#![tactic(auto)]
