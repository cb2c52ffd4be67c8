// Plans of a sheet: definitions and laws only.
#![tactic(auto)]
