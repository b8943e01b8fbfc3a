// The worked cases of document 01, as tables of rows in specs/, proved in proofs/ by computation from the definitions. There is no code here.

#![tactic(auto)]
