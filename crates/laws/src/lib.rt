// Laws of tests, bits, sums, lists, parts and tables, with no word of any document: specs/ has the few definitions they
// speak of, proofs/ what is proved of them. There is no function here.
#![tactic(auto)]
