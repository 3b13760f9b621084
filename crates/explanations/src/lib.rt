// A run in words: each step with its answer, and the state of each job at the end. Definitions and their laws; the crates `answers` and
// `explaining` carry them out.
#![tactic(auto)]
