// No code: specs/ says what a least-cost route, a right table, the list L and a search's answer are, over any graph; proofs/ has the laws.
#![tactic(auto)]
