// No function: what the customer was promised, sentence by sentence, and document 01's marked figures.

#![tactic(auto)]
