// What keeps the table rules: laws on one dialogue, for each change of its control record. The laws stand in proofs/, what they speak of in specs/.
#![tactic(auto)]
