// No function: what streams, pairs, conformance and rounds are, and the theory of closed pairs at any horizon.

#![tactic(auto)]
