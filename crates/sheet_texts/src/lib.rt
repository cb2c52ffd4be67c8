// The texts of sheets, by house: definitions and laws only.
#![tactic(auto)]
