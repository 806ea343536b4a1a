// The walk theorem: theorems about the hop rules of `mesh` round the blocks of `theory_blocks`, and no code.
#![tactic(auto)]
