// The calls on a log: a sample added, a power-up, the sample at a position; and the walk over its blocks that all of them begin with.
// Nothing need be checked first: each call refuses what it cannot take, and a refusal changes no byte. A log comes with its used number, as C hands
// them over; from the walk on they are one, the used blocks, and come apart again where the log is written.
// Proved: what each call answers and leaves is, for every input, that of document 02's Ask 1 and Ask 9 (block/specs, log_model/specs).
#![tactic(auto)]

mod change;
mod sample;
pub mod walk;

pub use change::{add, power_up};
pub use sample::{sample_place, sample_view};
