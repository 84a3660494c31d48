// No code: what is promised of drawing a message on the two lines, and of drawing and hearing together, as theorems over the definitions that their
// contracts cite.
#![tactic(auto)]
