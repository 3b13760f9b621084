// Instances of what is proved of the ledger, computed: document 01's whole run, a job that gets through, one that is released, two jobs for one label,
// and twelve refusals by the quota. There is no code.
#![tactic(auto)]
