// Blocks from rectangles (document 02, E10): definitions, theorems about them, and no code.
#![tactic(auto)]
