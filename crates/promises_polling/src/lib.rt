// No code: what is promised of a round that the recorder runs, of its three calls together, as theorems over the definitions that their contracts
// cite.
#![tactic(auto)]
