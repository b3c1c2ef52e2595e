// What is written is read back (01, "Coding"): theorems about the definitions alone, in proofs/Contents.antt, proofs/Spoken.antt and proofs/Aborts.antt.
#![tactic(auto)]
