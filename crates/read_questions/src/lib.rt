// What reading a text answers: definitions and laws only. The code's answer is the sheet, or the refusal.
#![tactic(auto)]
