// The layout of constraint text, RFC 4180 without quotes, in specs/, and its laws, in proofs/; no function.

#![tactic(auto)]
