// The ledger that is played over the calls agrees with the table: laws alone, no code. The definitions stand in crates/paper.
#![tactic(auto)]
