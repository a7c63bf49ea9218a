// Document 02, Ask 9: "When did that line die?" The question as definitions (specs/) and what is proved of them (proofs/): the first
// sample of a log that has a status bit. Nothing runs here: the crate log_first has the code, and its contracts cite these definitions.
#![tactic(auto)]
