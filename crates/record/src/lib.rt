// A port's record in the state: soundness, the count, clearing, raising, entering a mask or a page.
// Proved: each function gives the definition that its contract cites (document 01, "The 688 bytes", "Reading", "Writing").
#![tactic(auto)]

ghost use Rattle.std.specs.Prelude.{◌≡◌, ◌∷◌, ◌<◌, ◌+◌, true, IfOk, set};
ghost use Rattle.std.specs.Int.Bits.{bit_or};
ghost use Rattle.laws.specs.Tests.{first_of};
ghost use Rattle.laws.specs.Lists.{at, patch};
ghost use Rattle.model.specs.Map.{record_size, state_size, page_at, flags, supported, sound};
ghost use Rattle.model.specs.Refusals.{wrong_size, port_rows};
ghost use Rattle.model.specs.Reading.{cleared, status_byte};
ghost use Rattle.model.specs.Writing.{written};
ghost use Rattle.model.specs.Interrupt.{count};
ghost use Rattle.model.specs.Bytes.{memory_of, record_of, state_of};
ghost use Rattle.refusal.specs.Numbers.{number_of};
ghost use Rattle.both.specs.Ports.{port_number};
ghost use Rattle.address.specs.Meaning.{means};

use address::{Base, Class, HostRun, Own, Page, Place, State, registers};
use both::{Pairs, Port};
use refusal::Refusal;

// Byte `k` of the record at `base`.
fn own(state: &State, base: Base, k: usize) -> u8
    requires { k < record_size }
    ensures { result ≡ record_of state.now base.place.0 k }
{
    state[usize::from(address::in_record(base, k))]
}

// ---- soundness

// Whether the module has the page, any number: by bit 2 of lower byte 2, and bits 6 and 7 of page 00h byte 195. Bits are told by `/` and `%` here
// and below, as the definitions tell them; `&` would be no plainer.
#[tactic(auto, unfolding(model::specs::Map::supported))]
pub fn is_supported(state: &State, page: u8) -> bool
    ensures { result ≡ supported (memory_of state.now) page }
{
    let flat = address::stored(state, registers::STATUS) / 4 % 2 == 1;
    let offered = address::stored(state, registers::PAGES_OFFERED);
    match page {
        0 => true,
        1 => !flat & (offered / 64 % 2 == 1),
        2 => !flat & (offered / 128 % 2 == 1),
        3 => !flat,
        _ => false,
    }
}

// The page that the record at `base` selects.
pub fn page_of(state: &State, base: Base) -> u8
    ensures { result ≡ record_of state.now base.place.0 page_at }
{
    own(state, base, address::PAGE_IN)
}

// The page that it selects, where it is sound. No type holds a sound record: it is bytes of the state, which every call changes.
pub fn selected(state: &State, base: Base) -> Page
    requires { sound (memory_of state.now) (record_of state.now base.place.0) ≡ true }
    ensures { result.number ≡ record_of state.now base.place.0 page_at }
{
    Page {
        number: page_of(state, base),
    }
}

// Whether the record at `base` is sound.
#[tactic(auto, unfolding(model::specs::Map::sound, model::specs::Map::tidy))]
pub fn is_sound(state: &State, base: Base) -> bool
    ensures { result ≡ sound (memory_of state.now) (record_of state.now base.place.0) }
{
    is_supported(state, page_of(state, base))
        && own(state, base, address::VENDOR_FLAGS_IN) == 0
        && own(state, base, address::TEMPERATURE_FLAGS_IN) % 16 == 0
        && own(state, base, address::SUPPLY_FLAGS_IN) % 16 == 0
        && own(state, base, address::TEMPERATURE_MASK_IN) % 16 == 0
        && own(state, base, address::SUPPLY_MASK_IN) % 16 == 0
}

// The port that calls, or the refusals 1 to 3 of any call by a port: any state and any number, since that is what it refuses. `check_port` of
// `eight_module` is the same of the other module: what they share is `Port::try_from`.
pub fn caller(state: &[u8], port: u64) -> Result<Port, Refusal>
    ensures refusal { number_of result ≡ first_of ((1, wrong_size state.now) ∷ port_rows (state_of state.now) port) }
    ensures found { IfOk result (λ p. port_number p ≡ port) }
{
    let state = state
        .as_array::<{ address::STATE_LEN }>()
        .ok_or(Refusal::StateSize)?;
    let caller = Port::try_from(port)?;
    if !is_sound(state, address::record_of(port)) {
        return Err(Refusal::UnsoundRecord);
    }
    Ok(caller)
}

// ---- the count

// The flags of 3 to 7 with the masks 100 to 104, and those of 9 to 14 with the masks 242 to 247.
const LOW_PAIRS: Pairs = Pairs {
    many: address::LOW_MASKS_LEN,
    flags: address::FLAGS_IN,
    masks: address::LOW_MASKS_IN,
};

const HIGH_PAIRS: Pairs = Pairs {
    many: address::HIGH_MASKS_LEN,
    flags: address::CHANNEL_FLAGS_IN,
    masks: address::HIGH_MASKS_IN,
};

// The raised flags that the masks let through: added over eleven pairs.
pub fn count_of(state: &State, base: Base) -> u8
    ensures { result ≡ count (record_of state.now base.place.0) }
{
    let first = usize::from(base.place);
    both::count_beside(state, first, LOW_PAIRS) + both::count_beside(state, first, HIGH_PAIRS)
}

// Byte 2 as the port whose record is at `base` reads it.
pub fn status(state: &State, base: Base) -> u8
    ensures { result ≡ status_byte (memory_of state.now) (record_of state.now base.place.0) }
{
    let stored = address::stored(state, registers::STATUS);
    let pin = u8::from(count_of(state, base) == 0);
    stored / 4 % 2 * 4 + pin * 2 + stored % 2
}

// ---- flags

// Clears the flag bytes that a run of addresses has.
#[tactic(auto, unfolding(model::specs::Reading::cleared))]
pub fn clear(state: &mut State, base: Base, run: HostRun)
    ensures { state.new ≡ patch base.place.0 flags.many (cleared run.first.0 run.many (record_of state.old base.place.0)) state.old }
{
    address::clear_lane(state, run, address::own_lane(Own::FLAGS, base));
}

// Raises the conditions `cs` of the twelve flag bytes, a record's first.
pub fn raise(state: &mut State, base: Base, cs: &[u8; address::FLAGS_LEN])
    ensures { state.new ≡ patch base.place.0 flags.many (λ k. bit_or (at state.old (base.place.0 + k)) (at cs.now k)) state.old }
{
    moves::join(state, usize::from(base.place), cs);
}

// ---- writing

// What a byte of a class holds after `v` was written over `old`.
#[tactic(auto, unfolding(model::specs::Writing::written))]
pub fn entry(state: &State, class: Class, old: u8, v: u8) -> u8
    ensures { result ≡ written (memory_of state.now) (means class) old v }
{
    match class {
        Class::Nothing => old,
        Class::All => v,
        Class::LowFour => old - old % 16 + v % 16,
        Class::LowThree => old - old % 8 + v % 8,
        Class::HighFour => v - v % 16 + old % 16,
        Class::Page if is_supported(state, v) => v,
        Class::Page => 0,
    }
}

// Enters `v` at a place.
pub fn enter(state: &mut State, p: Place, class: Class, v: u8)
    requires { p.0 < state_size }
    ensures { state.new ≡ set state.old p.0 (written (memory_of state.old) (means class) (at state.old p.0) v) }
{
    let i = usize::from(p);
    state[i] = entry(state, class, state[i], v);
}
