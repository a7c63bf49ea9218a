// Host addresses, runs of them, and the pages that stand at the upper half of them.
ghost use Rattle.std.specs.Prelude.{◌≡◌, ◌<◌, ◌≤◌, ◌+◌, ◌-◌, max, min};

use moves::{Part, Run};

// A host address, 0 to 255.
#[derive(Clone, Copy, Debug, PartialEq, Eq)]
pub struct HostAddress(u8);

impl From<u8> for HostAddress {
    ghost from_gives = { λ number a. a.0 ≡ number };

    fn from(number: u8) -> HostAddress {
        HostAddress(number)
    }
}

impl From<HostAddress> for u8 {
    ghost from_gives = { λ a number. number ≡ a.0 };

    fn from(a: HostAddress) -> u8 {
        a.0
    }
}

// Host addresses in a row, none above 255: a `Run` whose numbers are addresses.
#[derive(Clone, Copy, Debug, PartialEq, Eq)]
pub struct HostRun {
    pub first: HostAddress,
    pub many: usize,
    ghost fits: { first.0 + many ≤ 256 },
}

// `many` addresses from `first` on.
pub fn run_from(first: u8, many: usize) -> HostRun
    requires { first + many ≤ 256 }
    ensures { (result.first.0 ≡ first) × (result.many ≡ many) }
{
    HostRun {
        first: HostAddress(first),
        many,
    }
}

impl HostRun {
    // Address `k` of it, from 0.
    pub fn nth(self, k: usize) -> HostAddress
        requires { k < self.many }
        ensures { result.0 ≡ self.first.0 + k }
    {
        HostAddress(self.first.0 + k as u8)
    }

    // Its addresses as numbers.
    pub fn numbers(self) -> Run
        ensures { (result.first ≡ self.first.0) × (result.many ≡ self.many) }
    {
        Run {
            first: usize::from(self.first.0),
            many: self.many,
        }
    }

    // What of it `other` has.
    pub fn part(self, other: HostRun) -> Part
        ensures { (result.skip ≡ max self.first.0 other.first.0 - self.first.0) × (result.many ≡ min (self.first.0 + self.many) (other.first.0 + other.many) - max self.first.0 other.first.0) }
    {
        self.numbers().part(other.numbers())
    }
}

// A page, 00h to 03h.
#[derive(Clone, Copy, Debug, PartialEq, Eq)]
pub struct Page {
    pub number: u8,
    ghost there: { number < 4 },
}
