// The eight-channel module: the four calls that are lent its state, 98 bytes, a file each, and here what they share. Nothing need be
// checked first: each call refuses what it cannot take, and a refusal changes no byte. The frame of the calls is that of `module`'s, and
// what is said there of it holds here.
// Proved: what each call answers and leaves is, for every input, that of the definitions (crates/eight), of which its rules are proved.
#![tactic(auto)]

ghost use Rattle.std.specs.Prelude.{◌≡◌, IfOk};
ghost use Rattle.laws.specs.Tests.{first_of};
ghost use Rattle.ports.specs.Ports.{caller};
ghost use Rattle.ports.specs.Interrupt.{count_of};
ghost use Rattle.ports.specs.Modules.{base, port_rows};
ghost use Rattle.ports.specs.Bytes.{record_of, state_of};
ghost use Rattle.eight.specs.Tables.{pairs};
ghost use Rattle.eight.specs.Module.{sound, eight};
ghost use Rattle.refusal.specs.Numbers.{number_of};
ghost use Rattle.both.specs.Ports.{port_number};

use both::{Pairs, Port};
use moves::Run;
use refusal::Refusal;

pub mod read;
pub mod reset;
pub mod sample;
pub mod write;

// ---- addresses

// How many there are; the flag bytes, and the mask bytes that serve them.
const ADDRESSES: u64 = 128;

const MANY: usize = 14;

const FLAGS: Run = Run {
    first: 3,
    many: MANY,
};

const MASKS: Run = Run {
    first: 102,
    many: MANY,
};

// ---- the bits that are flags, and masks

// The two bytes that have fewer than eight flags: of the temperature, and of the module.
const TEMPERATURE: usize = 5;

const MODULE: usize = 6;

// State changed, bit 0 of the module's flags, has no mask. Two tables, as the definitions have two.
const FLAG_BITS: [u8; MANY] = [
    0xff, 0xff, 0xff, 0xff, 0xff, 0xf0, 0xcf, 0xff, 0xff, 0xff, 0xff, 0xff, 0xff, 0xff,
];

const MASK_BITS: [u8; MANY] = [
    0xff, 0xff, 0xff, 0xff, 0xff, 0xf0, 0xce, 0xff, 0xff, 0xff, 0xff, 0xff, 0xff, 0xff,
];

// ---- the state: the conditions of the last accepted sample, then the operator's record, then the recorder's

const MEMORY: usize = 0;

const MEMORY_LEN: usize = MANY;

// in a record the flags, the masks and the pending bits
const FLAGS_IN: usize = 0;

const MASKS_IN: usize = FLAGS_IN + MANY;

const PENDING_IN: usize = MASKS_IN + MANY;

const RECORD_LEN: usize = PENDING_IN + MANY;

const STATE_LEN: usize = MEMORY_LEN + 2 * RECORD_LEN;

type State = [u8; STATE_LEN];

// Where the record of a port begins.
fn record_of(port: Port) -> usize
    ensures { result ≡ base eight (caller (port_number port)) }
{
    match port {
        Port::Operator => MEMORY_LEN,
        Port::Recorder => MEMORY_LEN + RECORD_LEN,
    }
}

// ---- soundness

// Whether the record of `port` is sound: no bit is set that is no flag and no paired mask. Six bytes by name: a loop over all 42 would look at
// those too that cannot be wrong.
fn is_sound(state: &State, port: Port) -> bool
    ensures { result ≡ sound (record_of eight state.now (base eight (caller (port_number port)))) }
{
    let base = record_of(port);
    (state[base + (FLAGS_IN + TEMPERATURE)] & !FLAG_BITS[TEMPERATURE] == 0)
        & (state[base + (FLAGS_IN + MODULE)] & !FLAG_BITS[MODULE] == 0)
        & (state[base + (MASKS_IN + TEMPERATURE)] & !MASK_BITS[TEMPERATURE] == 0)
        & (state[base + (MASKS_IN + MODULE)] & !MASK_BITS[MODULE] == 0)
        & (state[base + (PENDING_IN + TEMPERATURE)] & !FLAG_BITS[TEMPERATURE] == 0)
        & (state[base + (PENDING_IN + MODULE)] & !FLAG_BITS[MODULE] == 0)
}

// The port of a number, or the refusals 2 and 3 of any call by a port. `record::caller` is the same of document 01's module: what they share
// is `Port::try_from`, and a generic one would be handed all the rest.
fn check_port(state: &State, port: u64) -> Result<Port, Refusal>
    ensures refusal { number_of result ≡ first_of (port_rows eight (state_of eight state.now) port) }
    ensures found { IfOk result (λ p. port_number p ≡ port) }
{
    let port = Port::try_from(port)?;
    if !is_sound(state, port) {
        return Err(Refusal::UnsoundRecord);
    }
    Ok(port)
}

// ---- the count

// The pending bits that the masks of the record of `port` let through.
fn count_of(state: &State, port: Port) -> u8
    ensures { result ≡ count_of pairs (record_of eight state.now (base eight (caller (port_number port)))) }
{
    both::count_beside(
        state,
        record_of(port),
        Pairs {
            many: MANY,
            flags: PENDING_IN,
            masks: MASKS_IN,
        },
    )
}
