// The theory of blocks: theorems about the definitions of `mesh`, and no code.
#![tactic(auto)]
