// The user's three conditions of planning, deciding and seating, and that the calls agree: definitions and laws only.
#![tactic(auto)]
