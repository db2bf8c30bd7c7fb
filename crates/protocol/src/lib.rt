// The written steps of the floor controller. They are definitions (specs/) and theorems (proofs/): nothing here runs.

#![tactic(auto)]
