// The three demands: theorems over every history of calls. The definitions stand in specs/, the theorems in proofs/.
#![tactic(auto)]
