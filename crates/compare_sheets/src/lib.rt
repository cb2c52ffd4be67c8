// Sheets that customers compare: definitions and laws only.
#![tactic(auto)]
