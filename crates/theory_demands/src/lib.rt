// The demands of the hand-over sheet: theorems about the definitions that the promises of the operations cite, and no code.
#![tactic(auto)]
