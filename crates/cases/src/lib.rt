// Document 01's cases C1 to C10, worked from the definitions that the contracts cite. There is no code.
#![tactic(auto)]
