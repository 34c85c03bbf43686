// The search for what is gathered, as a definition: a table with a row for each node of the scope, and passes over the edges until nothing changes. Why it ends, and why the table then says what is
// gathered, stands in proofs/; docs/PROOF.md tells the argument.
#![tactic(auto)]
