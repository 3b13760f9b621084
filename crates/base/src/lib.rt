// Definitions and laws that every crate above cites. There is no code.
#![tactic(auto)]
