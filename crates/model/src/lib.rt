// Document 01 as definitions (specs/, one file for each of its sections) and what is proved of them (proofs/): the three
// demands over any history of calls. Nothing runs here: the crates above have the code, and their contracts cite these
// definitions alone.
#![tactic(auto)]
