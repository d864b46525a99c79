// No code: what a reader sends, what the card keeps between two events, and the run that comes of it.
#![tactic(auto)]
