// What every table that keeps the rules is, and what storing one place does to its octets: laws in proofs/, once for all calls.
#![tactic(auto)]
