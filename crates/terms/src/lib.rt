// Terms, substitutions and multisets of terms: definitions and laws. There is no code to run.
#![tactic(auto)]
