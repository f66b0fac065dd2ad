// Laws for proofs: slices and arrays that are lent on, local memory, functions that only call others, and branches.
#![tactic(auto)]
