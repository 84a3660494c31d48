// No code: what the documents promise of the board, as theorems over the definitions that the contracts of `board` cite.
#![tactic(auto)]
