// Why one run of LRU with eight ways counts the misses of every smaller number of ways: from empty sets its first w lines are those of w ways. The proofs stand in proofs/; docs/PROOF.md tells the argument.
#![tactic(auto)]
