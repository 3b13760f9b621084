// Checks 6 to 9: their definitions and what they mean. The functions that make them stand in `forms`, `balances` and `examination`.
#![tactic(auto)]
