// How large the numbers of a pass over limits are: laws only.
#![tactic(auto)]
