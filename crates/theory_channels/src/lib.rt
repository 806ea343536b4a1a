// The theory of channels (document 02, E9): theorems about the turn rules and the judging of `mesh`, and no code.
#![tactic(auto)]
