// Why the promises hold: walks, counting, the policies, and demand 3 in both halves. The proofs stand in proofs/; docs/PROOF.md tells the argument.
#![tactic(auto)]
