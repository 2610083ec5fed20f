// No code: theorems only, for the acceptance reader. specs/ has the cases of 01 and the second and third condition of the tender; proofs/ shows that they hold.
#![tactic(auto)]
