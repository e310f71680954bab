#![tactic(auto)]

// General laws, for proofs alone: sums, tables of values, "one of them holds". No function is here.
