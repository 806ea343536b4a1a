// The theory of judging: theorems about the definitions of `mesh`, and no code.
#![tactic(auto)]
