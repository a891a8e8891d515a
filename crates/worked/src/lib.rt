// Worked cases of document 01 as theorems about the definitions: see specs/. There is no code.
#![tactic(auto)]
