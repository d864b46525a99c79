// No code: what a customer's reviewer reads first. specs/ has the statements, proofs/ their theorems.
#![tactic(auto)]
