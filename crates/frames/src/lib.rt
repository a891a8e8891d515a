// The frame of a module and the slots of its frame table, as theory: the slots are a sound table, and a dispatcher that runs it names at
// every tick the partition whose execution covers it (demand 3). There is no code: `builder` builds what stands here.
#![tactic(auto)]
