// A register: how many addresses it has and which, where the memory holds them, what stands in the first of them.
ghost use Rattle.std.specs.Prelude.{◌≡◌, ◌<◌, ◌≤◌, ◌+◌, ◌-◌, eqb, true, false, MatchOption};
ghost use Rattle.laws.specs.Tests.{covers};
ghost use Rattle.model.specs.Map.{memory_size, page_size};
ghost use Rattle.model.specs.Bytes.{memory_of};
ghost use Rattle.address.specs.Meaning.{held_at, length_of};

use super::{HostAddress, HostRun, Page, Place, PlaceRun, Register, State};

impl Register {
    // ---- its addresses

    // How many addresses it has.
    pub fn many(self) -> usize
        ensures { result ≡ length_of self }
    {
        usize::from(self.last - self.first) + 1
    }

    // Its addresses.
    pub fn hosts(self) -> HostRun
        ensures { (result.first.0 ≡ self.first) × (result.many ≡ length_of self) }
    {
        super::run_from(self.first, self.many())
    }

    // Whether `page` is its page. Any number is taken, as it always was, so not a `Page`.
    pub fn is_on(self, page: u8) -> bool
        ensures { result ≡ eqb page self.page }
    {
        page == self.page
    }

    // Whether an address is one of its addresses.
    pub(crate) fn has(self, a: HostAddress) -> bool
        ensures { result ≡ covers self.first (length_of self) a.0 }
    {
        (self.first..=self.last).contains(&u8::from(a))
    }

    // How many of them come before an address, if it is one of them.
    pub(crate) fn step_to(self, a: HostAddress) -> Option<usize>
        ensures { MatchOption result (covers self.first (length_of self) a.0 ≡ false) (λ k. (covers self.first (length_of self) a.0 ≡ true) × (k ≡ a.0 - self.first)) }
    {
        if self.has(a) {
            return Some(usize::from(u8::from(a) - self.first));
        }
        None
    }

    // ---- its places

    // Where the memory holds its first byte.
    pub fn place(self) -> Place
        ensures { (result.0 ≡ held_at self) × (result.0 < memory_size) }
    {
        super::stored_at(HostAddress::from(self.first), Page { number: self.page })
    }

    // Where it holds all of them.
    pub fn places(self) -> PlaceRun
        ensures { (result.first.0 ≡ held_at self) × (result.many ≡ length_of self) × (held_at self + length_of self ≤ memory_size) }
    {
        PlaceRun {
            first: self.place(),
            many: self.many(),
        }
    }

    // All of the memory before it.
    pub fn memory_before(self) -> PlaceRun
        ensures { (result.first.0 ≡ 0) × (result.many ≡ held_at self) }
    {
        PlaceRun {
            first: Place(0),
            many: self.place().0,
        }
    }

    // All of the memory behind it.
    pub fn memory_behind(self) -> PlaceRun
        ensures { (result.first.0 ≡ held_at self + length_of self) × (result.many ≡ memory_size - (held_at self + length_of self)) }
    {
        let run = self.places();
        let end = run.first.0 + run.many;
        PlaceRun {
            first: Place(end),
            many: super::MEMORY_LEN - end,
        }
    }

    // Where a page's own 128 bytes have its first byte; at their front if it is in lower memory.
    pub fn in_page(self) -> usize
        ensures { result ≡ self.first - page_size }
    {
        usize::from(self.first).saturating_sub(super::PAGE_LEN)
    }
}

// The first byte of a register, as it is stored.
pub fn stored(state: &State, r: Register) -> u8
    ensures { result ≡ memory_of state.now (held_at r) }
{
    state[r.place().0]
}
