// What is drawn of a card: promises alone, no code.
#![tactic(auto)]
