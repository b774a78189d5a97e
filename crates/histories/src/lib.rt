// Theory alone, for request 12: the definitions stand in specs/, the theorems about them in proofs/.
#![tactic(auto)]
