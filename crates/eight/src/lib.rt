// The eight-channel module (QSFP-DD revision 2.0, flags and masks of the lower page) as definitions, and what is proved of it: what any
// module with two ports has, from ports, and its own rule, that the interrupt comes at the onset of a condition. Nothing runs here.
#![tactic(auto)]
