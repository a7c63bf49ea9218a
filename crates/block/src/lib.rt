// Document 02, Ask 1 and Ask 9: a block of a log, 512 bytes, as definitions (specs/) and what is proved of them (proofs/). A block knows
// nothing of the log it stands in. Nothing runs here: the crate log_block has the code, and its contracts cite these definitions.
#![tactic(auto)]
