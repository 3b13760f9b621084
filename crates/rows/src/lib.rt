// The words of a run file's text form, and what a line says by them: definitions and their laws. The crate `lines` carries them out.
#![tactic(auto)]
