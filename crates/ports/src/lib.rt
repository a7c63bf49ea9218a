// What modules with two ports share, whatever their registers: the calls, histories of them, refusals, the state as bytes, the count
// (specs/), and what is proved of it once (proofs/). What a document says of a module is a value of `Module`; document 01's is in
// model, that of the eight-channel module in eight. Nothing runs here.
#![tactic(auto)]
