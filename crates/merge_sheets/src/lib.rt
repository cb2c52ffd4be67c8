// Two sheets made one: definitions and laws only.
#![tactic(auto)]
