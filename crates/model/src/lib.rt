// Definitions (specs/) and theorems (proofs/) only: the code of the layers above is proved against them.
#![tactic(auto)]
