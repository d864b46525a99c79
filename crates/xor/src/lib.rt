// No code: laws of exclusive or that the two checksums share.
#![tactic(auto)]
