// The answer pages: definitions and laws only.
#![tactic(auto)]
