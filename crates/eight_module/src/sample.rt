// The sample, on lent memory.
// Proved: for every state and sample, the refusal, both counts and the bytes left are those of the definitions.
ghost use Rattle.std.specs.Prelude.{◌≡◌, length, drop, ◌≤◌, ◌+◌, IfOk, IfErr};
ghost use Rattle.std.specs.Int.Bits.{bit_or, bit_and, bit_xor};
ghost use Rattle.laws.specs.Lists.{at, table, patch};
ghost use Rattle.ports.specs.Ports.{sample, caller};
ghost use Rattle.ports.specs.Modules.{base};
ghost use Rattle.ports.specs.Bytes.{refusal_of};
ghost use Rattle.ports.specs.Outcomes.{Reported};
ghost use Rattle.eight.specs.Tables.{record_size};
ghost use Rattle.eight.specs.Module.{conditions, eight};
ghost use Rattle.refusal.specs.Numbers.{number, number_of};
ghost use Rattle.both.specs.Ports.{port_number};
ghost use Rattle.eight_module.specs.Joined.{joined};

use super::{STATE_LEN, State};
use both::{Counts, Port};
use refusal::Refusal;
use std::array;

// A byte for each flag byte.
type Bytes = [u8; super::MANY];

// The sample, or why it is not taken.
fn check<'a>(state: &State, x: &'a [u8]) -> Result<&'a Bytes, Refusal>
    ensures refusal { number_of result ≡ refusal_of eight state.now (sample x.now) }
    ensures found { IfOk result (λ y. y.now ≡ x.now) }
{
    let operator = super::is_sound(state, Port::Operator);
    let recorder = super::is_sound(state, Port::Recorder);
    both::check_sample(operator, recorder, x)
}

// Fourteen bytes, a flag byte's each, behind two zeros: so sixteen places are joined at once, and the two before a run stay as they are.
#[derive(Clone, Copy)]
struct Led {
    bytes: [u8; LED],
    ghost lead: { (at bytes 0 ≡ 0) × (at bytes 1 ≡ 0) },
}

const LEAD: usize = 2;

const LED: usize = LEAD + super::MANY;

// The conditions of a sample, its bits that are flags. By `from_fn`, since arrays have no zip.
fn conditions(x: &Bytes) -> Led
    ensures { drop 2 result.bytes ≡ table 14 (conditions x.now) }
{
    let bytes = array::from_fn(|k| {
        if k < LEAD {
            0
        } else {
            x[k - LEAD] & super::FLAG_BITS[k - LEAD]
        }
    });
    Led { bytes }
}

// Those of the conditions `cs` that have their onset: absent in the accepted sample before. They are taken away as `both` takes away masked
// bits; `from_fn` as above.
fn onsets(state: &State, cs: Led) -> Led
    ensures { drop 2 result.bytes ≡ table 14 (λ i. let c = at (drop 2 cs.bytes) i in bit_xor c (bit_and c (at state.now i))) }
{
    let bytes = array::from_fn(|k| {
        if k < LEAD {
            0
        } else {
            cs.bytes[k] ^ (cs.bytes[k] & state[k - LEAD])
        }
    });
    Led { bytes }
}

// Joins the fourteen bytes to the run of places from `to` on.
fn join(state: &mut State, to: usize, led: Led)
    requires { (2 ≤ to) × (to + 14 ≤ length state.old) }
    ensures { state.new ≡ patch to 14 (λ j. bit_or (at state.old (to + j)) (at (drop 2 led.bytes) j)) state.old }
{
    moves::join(state, to - LEAD, &led.bytes);
}

// Raises the conditions `cs` and marks the onsets `os` as pending in the record of `port`.
fn raise(state: &mut State, port: Port, cs: Led, os: Led)
    ensures { let b = base eight (caller (port_number port)) in state.new ≡ patch b record_size (λ k. joined (drop 2 cs.bytes) (drop 2 os.bytes) k (at state.old (b + k))) state.old }
{
    let base = super::record_of(port);
    join(state, base + super::FLAGS_IN, cs);
    join(state, base + super::PENDING_IN, os);
}

// An accepted sample.
fn accept(state: &mut State, x: &Bytes) -> Counts
    requires { refusal_of eight state.old (sample x.now) ≡ 0 }
    ensures { Reported eight state.old (sample x.now) 0 result.operator result.recorder state.new }
{
    let cs = conditions(x);
    let os = onsets(state, cs);
    moves::copy(state, super::MEMORY, &cs.bytes[LEAD..]);
    raise(state, Port::Operator, cs, os);
    raise(state, Port::Recorder, cs, os);
    Counts {
        operator: super::count_of(state, Port::Operator),
        recorder: super::count_of(state, Port::Recorder),
    }
}

// Takes a sample: raises its conditions in both records, marks their onsets as pending there, and keeps them for the next sample.
// The state and the sample stay slices: C hands them over so (zikhrodan_dd_sample).
pub fn sample(state: &mut [u8], x: &[u8]) -> Result<Counts, Refusal>
    ensures accepted { IfOk result (λ n. Reported eight state.old (sample x.now) 0 n.operator n.recorder state.new) }
    ensures refused { IfErr result (λ r. Reported eight state.old (sample x.now) (number r) 0 0 state.new) }
{
    let state = state.as_mut_array::<STATE_LEN>().ok_or(Refusal::StateSize)?;
    let x = check(state, x)?;
    Ok(accept(state, x))
}
