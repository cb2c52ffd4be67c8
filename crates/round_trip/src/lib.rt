// What goes out to a house comes back: theorems only.
#![tactic(auto)]
