// Algorithms 1 to 5 of document 000, and what they have to do with document 01's choices: definitions and laws. There is no code to run.
#![tactic(auto)]
