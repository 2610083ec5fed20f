// No code: specs/ says what the list L, a search's answer and the costs it leaves are, and what a search keeps on its way to them, over any graph; proofs/ has the laws.
#![tactic(auto)]
