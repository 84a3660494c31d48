// No code: what document 02 promises of item records, as theorems over the definitions that their contracts cite.
#![tactic(auto)]
