// What the answer to a text is, and the user's three conditions of it: definitions and laws only.
#![tactic(auto)]
