// The same wave listed differently, and waves that are allowed more: definitions and laws only.
#![tactic(auto)]
