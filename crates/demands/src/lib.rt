// The promises in one place: the three demands and the worked cases, as theorems over the public definitions. There is no code.
#![tactic(auto)]
