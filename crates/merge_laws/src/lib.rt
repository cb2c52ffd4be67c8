// What is promised of merging two texts: theorems only.
#![tactic(auto)]
