// Sums, counts, lists, digits and ranks: definitions in specs/, their laws in proofs/, and no code.
#![tactic(auto)]
