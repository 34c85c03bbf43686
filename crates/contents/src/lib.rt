// Why the writer's promise holds: what is written passes the layout rules and reads back as the same lists, and a file that passes them comes out again byte for byte. The proofs stand in proofs/; docs/PROOF.md tells the argument.
#![tactic(auto)]
