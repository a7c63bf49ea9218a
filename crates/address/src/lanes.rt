// Runs of addresses taken to runs of places: what a read copies, and what it clears.
// A lane is some addresses in a row whose bytes stand in a row; a run of addresses has a part of each lane, or none.
ghost use Rattle.std.specs.Prelude.{◌≡◌, ◌≤◌, ◌+◌, ◌-◌, true, false, MatchOption, length, if◌then◌else◌};
ghost use Rattle.laws.specs.Tests.{covers};
ghost use Rattle.laws.specs.Lists.{at, patch};
ghost use Rattle.model.specs.Map.{page_size, paged, record_size, state_size};
ghost use Rattle.moves.specs.Copied.{copied};
ghost use Rattle.address.specs.Meaning.{length_of};

use super::{Base, HostAddress, HostRun, Page, Place, Register, registers};

// ---- lanes

// Addresses in a row whose bytes stand in a row, the first at `from`.
#[derive(Clone, Copy, Debug, PartialEq, Eq)]
pub struct Lane {
    hosts: HostRun,
    from: Place,
    ghost inside: { from.0 + hosts.many ≤ state_size },
}

// Lower memory, as it is stored.
pub fn lower_lane() -> Lane
    ensures { (result.hosts.first.0 ≡ 0) × (result.hosts.many ≡ page_size) × (result.from.0 ≡ 0) }
{
    Lane {
        hosts: registers::LOWER.hosts(),
        from: registers::LOWER.place(),
    }
}

// The selected page, as it is stored.
pub fn page_lane(page: Page) -> Lane
    ensures { (result.hosts.first.0 ≡ page_size) × (result.hosts.many ≡ page_size) × (result.from.0 ≡ paged page.number page_size) }
{
    let hosts = registers::PAGE_00.hosts();
    Lane {
        hosts,
        from: super::stored_at(hosts.first, page),
    }
}

// A register that each port has for its own: its record has the bytes, from byte `at` on.
#[derive(Clone, Copy, Debug, PartialEq, Eq)]
pub struct Own {
    register: Register,
    at: usize,
    ghost recorded: { at + length_of register ≤ record_size },
}

impl Own {
    pub const FLAGS: Own = Own {
        register: registers::FLAGS,
        at: super::FLAGS_IN,
    };

    pub const LOW_MASKS: Own = Own {
        register: registers::LOW_MASKS,
        at: super::LOW_MASKS_IN,
    };

    pub const HIGH_MASKS: Own = Own {
        register: registers::HIGH_MASKS,
        at: super::HIGH_MASKS_IN,
    };

    // The selected page.
    pub const SELECT: Own = Own {
        register: registers::SELECT,
        at: super::PAGE_IN,
    };

    // The byte of the record that an address has, if it is one of the register's.
    pub fn byte_of(self, a: HostAddress) -> Option<usize>
        ensures { MatchOption result (covers self.register.first (length_of self.register) a.0 ≡ false) (λ k. (covers self.register.first (length_of self.register) a.0 ≡ true) × (k ≡ self.at + (a.0 - self.register.first))) }
    {
        let steps = self.register.step_to(a)?;
        Some(self.at + steps)
    }
}

// Of the record that begins at `base`: one of these.
pub fn own_lane(own: Own, base: Base) -> Lane
    ensures { (result.hosts.first.0 ≡ own.register.first) × (result.hosts.many ≡ length_of own.register) × (result.from.0 ≡ base.place.0 + own.at) }
{
    Lane {
        hosts: own.register.hosts(),
        from: super::in_record(base, own.at),
    }
}

// ---- what of a run of addresses a lane has

// Puts what the lane has of a run into `out`, whose front stands for the run. Any memory that has the lane's places is taken, as it always was, here
// and below; `out` comes apart from the run, as in `module`'s read.
pub fn put_lane(out: &mut [u8], run: HostRun, state: &[u8], lane: Lane)
    requires { (run.many ≤ length out.old) × (lane.from.0 + lane.hosts.many ≤ length state.now) }
    ensures { out.new ≡ patch 0 run.many (λ j. copied state.now lane.from.0 lane.hosts.first.0 lane.hosts.many (run.first.0 + j) (at out.old j)) out.old }
{
    moves::copy_part(out, run.numbers(), state, lane.from.0, lane.hosts.numbers());
}

// Empties what the lane has of a run.
pub fn clear_lane(state: &mut [u8], run: HostRun, lane: Lane)
    requires { lane.from.0 + lane.hosts.many ≤ length state.old }
    ensures { state.new ≡ patch lane.from.0 lane.hosts.many (λ k. if covers run.first.0 run.many (lane.hosts.first.0 + k) then 0 else at state.old (lane.from.0 + k)) state.old }
{
    moves::fill_part(state, lane.from.0, lane.hosts.numbers(), run.numbers(), 0);
}
