// The sample, on lent memory.
// Proved: for every state and sample, the refusal, both counts and the bytes left are those of the model's sample.
ghost use Rattle.std.specs.Prelude.{◌≡◌, ◌≤◌, ◌+◌, IfOk, IfErr, if◌then◌else◌};
ghost use Rattle.laws.specs.Lists.{at, patch};
ghost use Rattle.model.specs.Ports.{sample};
ghost use Rattle.model.specs.Map.{memory_size};
ghost use Rattle.model.specs.Samples.{sample_size, stored, offered, tx_power};
ghost use Rattle.model.specs.Bytes.{memory_of, refusal_of};
ghost use Rattle.model.specs.Outcomes.{Reported};
ghost use Rattle.refusal.specs.Numbers.{number, number_of};
ghost use Rattle.address.specs.Meaning.{held_at, length_of};

use address::{Register, State, registers};
use alarms::Sample;
use both::{Counts, Port};
use refusal::Refusal;

// Bytes as a sample, or the refusals of one.
fn check<'a>(state: &State, bytes: &'a [u8]) -> Result<&'a Sample, Refusal>
    ensures refusal { number_of result ≡ refusal_of state.now (sample bytes.now) }
    ensures same { IfOk result (λ x. x.now ≡ bytes.now) }
{
    let first = record::is_sound(state, address::record_of(Port::Operator.into()));
    let second = record::is_sound(state, address::record_of(Port::Recorder.into()));
    both::check_sample(first, second, bytes)
}

// Stores in a register the sample's bytes from `from` on.
fn store_in(state: &mut State, r: Register, x: &Sample, from: usize)
    requires { from + length_of r ≤ sample_size }
    ensures { state.new ≡ patch (held_at r) (length_of r) (λ j. at x.now (from + j)) state.old }
{
    let run = r.places();
    moves::copy(state, usize::from(run.first), &x[from..from + run.many]);
}

// Stores its Tx power, where that is offered.
fn store_tx(state: &mut State, x: &Sample)
    ensures { state.new ≡ (if offered (memory_of state.old) tx_power then patch 50 8 (λ j. at x.now (23 + j)) state.old else state.old) }
{
    if alarms::offers_tx(state) {
        store_in(state, registers::TX_POWER, x, alarms::TX_POWER_IN);
    }
}

// Stores its numbers where they are read, and takes Data_Not_Ready away, bit 0, as the definition does it.
fn store(state: &mut State, x: &Sample)
    ensures { state.new ≡ patch 0 memory_size (λ i. stored (memory_of state.old) x.now i (at state.old i)) state.old }
{
    // not a table, as of the registers that a reset empties: it would need a type to hold that each one's bytes lie in the sample
    store_tx(state, x);
    store_in(state, registers::TX_BIAS, x, alarms::TX_BIAS_IN);
    store_in(state, registers::RX_POWER, x, alarms::RX_POWER_IN);
    store_in(state, registers::SUPPLY, x, alarms::SUPPLY_IN);
    store_in(state, registers::TEMPERATURE, x, alarms::TEMPERATURE_IN);
    let status = usize::from(registers::STATUS.place());
    state[status] = state[status] - state[status] % 2;
}

// An accepted sample.
fn accept(state: &mut State, x: &Sample) -> Counts
    requires { refusal_of state.old (sample x.now) ≡ 0 }
    ensures { Reported state.old (sample x.now) 0 result.operator result.recorder state.new }
{
    let cs = alarms::conditions(state, x);
    let first = address::record_of(Port::Operator.into());
    let second = address::record_of(Port::Recorder.into());
    store(state, x);
    record::raise(state, first, &cs);
    record::raise(state, second, &cs);
    Counts {
        operator: record::count_of(state, first),
        recorder: record::count_of(state, second),
    }
}

// Takes a sample: stores its numbers, and raises its conditions in both records.
pub fn sample(state: &mut [u8], x: &[u8]) -> Result<Counts, Refusal>
    ensures accepted { IfOk result (λ n. Reported state.old (sample x.now) 0 n.operator n.recorder state.new) }
    ensures refused { IfErr result (λ r. Reported state.old (sample x.now) (number r) 0 0 state.new) }
{
    let state = state.as_mut_array().ok_or(Refusal::StateSize)?;
    let x = check(state, x)?;
    Ok(accept(state, x))
}
