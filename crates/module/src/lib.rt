// The module: the four calls that are lent its state, 688 bytes, a file each. Nothing need be checked first: each call refuses what it
// cannot take, and a refusal changes no byte.
// The state is a slice and a port a number where C hands them over; behind the check they are an array and a `Port`. The calls of `eight_module`
// have the same frame, the state's length, a check, what is accepted: not one generic function, which would be handed all but these three
// lines. That a call was not refused is asked of what is accepted: each is called once, behind its check.
// Proved: what each call answers and leaves is, for every input, the model's (crates/model), of which the demands are proved.
#![tactic(auto)]

pub mod read;
pub mod reset;
pub mod sample;
pub mod write;
