// No function: laws that the specifications and proofs above cite.

#![tactic(auto)]
