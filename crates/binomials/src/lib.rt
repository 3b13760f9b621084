// Binomials, Pascal's triangle, rounding to thousandths and the draw: definitions and their laws. There is no code: the crate `draw` carries them out.
#![tactic(auto)]
