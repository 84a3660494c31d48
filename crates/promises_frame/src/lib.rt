// No code: what the documents promise of polls and replies, as theorems over the definitions that the contracts of `frame` cite.
#![tactic(auto)]
