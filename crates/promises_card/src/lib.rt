// No code: what the documents promise of the month sheet, its listing and the desk summary, as theorems over the definitions that their contracts cite.
#![tactic(auto)]
