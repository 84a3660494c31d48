// No code: what document 02 promises of areas, as theorems over the definitions that their contracts cite.
#![tactic(auto)]
