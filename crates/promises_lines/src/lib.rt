// No code: what document 02 promises of the lines heard, as theorems over the definitions that the contract of `lines` cites.
#![tactic(auto)]
