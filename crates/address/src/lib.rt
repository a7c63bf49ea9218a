// Host addresses (hosts.rt), places in the state, and the one bridge between them; by runs it is lanes.rt, by registers held.rt. Every
// register by name is registers.rt, the bits that a port may write classes.rt.
// Nothing outside this crate can make a place: what it cannot name by a register, or by a record and a byte of it, it cannot reach.
// Proved: each function gives the definition that its contract cites (document 01, "The 688 bytes" and "Writing").
#![tactic(auto)]

ghost use Rattle.std.specs.Prelude.{◌≡◌, ◌<◌, ◌≤◌, ◌+◌, ◌*◌};
ghost use Rattle.model.specs.Ports.{caller};
ghost use Rattle.model.specs.Map.{memory_size, record_size, state_size, base, seat};
ghost use Rattle.address.specs.Meaning.{stored_at, seat_of};

mod classes;
mod held;
mod hosts;
mod lanes;
pub mod registers;

pub use classes::{Class, common_class, own_class};
pub use held::stored;
pub use hosts::{HostAddress, HostRun, Page, run_from};
pub use lanes::{Lane, Own, clear_lane, lower_lane, own_lane, page_lane, put_lane};
pub use registers::Register;

// ---- sizes

// How many host addresses there are.
pub const HOSTS: u64 = 256;
// Lower memory, and each page.
pub const PAGE_LEN: usize = 128;
// Lower memory and pages 00h to 03h.
pub const MEMORY_LEN: usize = 5 * PAGE_LEN;

// ---- a record's bytes by name: the flags of 3 to 14, the masks 100 to 104, the masks 242 to 247, the page

pub const FLAGS_IN: usize = 0;

pub const FLAGS_LEN: usize = 12;

pub const LOW_MASKS_IN: usize = FLAGS_IN + FLAGS_LEN;

pub const LOW_MASKS_LEN: usize = 5;

pub const HIGH_MASKS_IN: usize = LOW_MASKS_IN + LOW_MASKS_LEN;

pub const HIGH_MASKS_LEN: usize = 6;

pub const PAGE_IN: usize = HIGH_MASKS_IN + HIGH_MASKS_LEN;

pub const RECORD_LEN: usize = PAGE_IN + 1;

pub const STATE_LEN: usize = MEMORY_LEN + 2 * RECORD_LEN;

// The state.
pub type State = [u8; STATE_LEN];

// the flags of bytes 6 and 7 and the masks 103 and 104 have bits 7 to 4 alone; byte 8 has none
pub const TEMPERATURE_FLAGS_IN: usize = FLAGS_IN + 3;

pub const SUPPLY_FLAGS_IN: usize = FLAGS_IN + 4;

pub const VENDOR_FLAGS_IN: usize = FLAGS_IN + 5;

// the flags of byte 9, the first of the channels
pub const CHANNEL_FLAGS_IN: usize = FLAGS_IN + 6;

pub const TEMPERATURE_MASK_IN: usize = LOW_MASKS_IN + 3;

pub const SUPPLY_MASK_IN: usize = LOW_MASKS_IN + 4;

// ---- places

// A place in the state, 0 to STATE_LEN - 1.
#[derive(Clone, Copy, Debug, PartialEq, Eq)]
pub struct Place(usize);

// The number of a place, to index the state with.
impl From<Place> for usize {
    ghost from_gives = { λ p i. i ≡ p.0 };

    fn from(p: Place) -> usize {
        p.0
    }
}

// Places in a row: a type of its own beside `HostRun`, as places and addresses are not to be mixed up.
#[derive(Clone, Copy, Debug, PartialEq, Eq)]
pub struct PlaceRun {
    pub first: Place,
    pub many: usize,
    ghost inside: { first.0 + many ≤ state_size },
}

// ---- a port's record

// Where a record begins.
#[derive(Clone, Copy, Debug, PartialEq, Eq)]
pub struct Base {
    pub place: Place,
    ghost whole: { place.0 + record_size ≤ state_size },
}

// Where the record of a port begins. Any number is taken, as it always was, so not a `Port`.
pub fn record_of(port: u64) -> Base
    ensures { (result.place.0 ≡ base (caller port)) × (memory_size ≤ result.place.0) }
{
    let place = if port == 1 {
        Place(MEMORY_LEN)
    } else {
        Place(MEMORY_LEN + RECORD_LEN)
    };
    Base { place }
}

// Byte `k` of the record that begins at `base`.
pub fn in_record(base: Base, k: usize) -> Place
    requires { k < record_size }
    ensures { result.0 ≡ base.place.0 + k }
{
    Place(base.place.0 + k)
}

// Both records.
pub fn records() -> PlaceRun
    ensures { (result.first.0 ≡ memory_size) × (result.many ≡ 2 * record_size) }
{
    PlaceRun {
        first: Place(MEMORY_LEN),
        many: STATE_LEN - MEMORY_LEN,
    }
}

// ---- from addresses to places

// Where the memory holds the byte of an address, with `page` selected.
pub fn stored_at(a: HostAddress, page: Page) -> Place
    ensures { (result.0 ≡ stored_at page.number a.0) × (result.0 < memory_size) }
{
    let number = usize::from(u8::from(a));
    if number < PAGE_LEN {
        return Place(number);
    }
    Place(number + PAGE_LEN * usize::from(page.number))
}

// Where an address leads: to a byte of the port's record (a flag byte, or a mask or the page), to a place of the memory, to byte 2, to
// no place.
#[derive(Clone, Copy, Debug, PartialEq, Eq)]
pub enum Slot {
    Flag(usize),
    Mine(usize),
    Common(Place),
    Status,
    Blank,
}

// The bridge from an address to a place, for a port with `page` selected.
#[tactic(auto, unfolding(model::specs::Map::seat))]
pub fn translate(a: HostAddress, page: Page) -> Slot
    ensures { seat_of result ≡ seat page.number a.0 }
{
    if let Some(k) = Own::FLAGS.byte_of(a) {
        return Slot::Flag(k);
    }
    if let Some(k) = Own::LOW_MASKS.byte_of(a) {
        return Slot::Mine(k);
    }
    if let Some(k) = Own::SELECT.byte_of(a) {
        return Slot::Mine(k);
    }
    if registers::BLANKS.has(a) {
        return Slot::Blank;
    }
    if registers::STATUS.has(a) {
        return Slot::Status;
    }
    if registers::HIGH_MASKS.is_on(page.number) {
        if let Some(k) = Own::HIGH_MASKS.byte_of(a) {
            return Slot::Mine(k);
        }
    }
    Slot::Common(stored_at(a, page))
}
