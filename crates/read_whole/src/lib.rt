// What reading a text comes to, with rooms for every sheet: definitions and laws only.
#![tactic(auto)]
