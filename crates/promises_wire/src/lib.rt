// No code: what holds of the whole way, from the two lines to the listing, as theorems over the definitions that the contracts cite.
#![tactic(auto)]
