// RULES.md, from Master data to The claim: the rules of the whole cache, with no code. Definitions are in specs/, laws and the claim over every list
// of steps in proofs/.
#![tactic(auto)]
