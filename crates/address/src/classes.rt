// Which bits of a byte a port may write.
ghost use Rattle.std.specs.Prelude.{◌≡◌, ◌<◌, ◌≤◌};
ghost use Rattle.laws.specs.Tests.{covers};
ghost use Rattle.model.specs.Ports.{caller};
ghost use Rattle.model.specs.Map.{common};
ghost use Rattle.model.specs.Reading.{shared};
ghost use Rattle.model.specs.Writing.{own_class, class_of};
ghost use Rattle.address.specs.Meaning.{held_at, length_of, means};

use super::{Place, Register, registers};

// The bits of a byte that a write reaches.
#[derive(Clone, Copy, Debug, PartialEq, Eq)]
pub enum Class {
    Nothing,
    All,
    LowFour,
    LowThree,
    HighFour,
    Page,
}

// Of byte `k` of a record, for its port.
pub fn own_class(k: usize) -> Class
    ensures { means result ≡ own_class k }
{
    match k {
        super::TEMPERATURE_MASK_IN | super::SUPPLY_MASK_IN => Class::HighFour,
        super::PAGE_IN => Class::Page,
        super::LOW_MASKS_IN..super::PAGE_IN => Class::All,
        _ => Class::Nothing,
    }
}

// Whether a place of the memory is a register's.
fn is_of(r: Register, p: Place) -> bool
    ensures { result ≡ covers (held_at r) (length_of r) p.0 }
{
    let run = r.places();
    (run.first.0..run.first.0 + run.many).contains(&p.0)
}

// Whether it is on the shared list. Not a table and `any`: that was tried, and the proof did not close.
#[tactic(auto, using(laws::proofs::Tests::covers_one), unfolding(model::specs::Reading::shared))]
fn is_shared(p: Place) -> bool
    ensures { result ≡ shared p.0 }
{
    is_of(registers::TX_DISABLE, p)
        | (is_of(registers::RATE_SELECT, p)
            | (is_of(registers::POWER, p)
                | (is_of(registers::CDR, p)
                    | (is_of(registers::PAGE_02, p) | is_of(registers::CHANNEL_CONTROLS, p)))))
}

// Of a place of the memory, for a port: any number, as it always was, so not a `Port`.
#[tactic(auto, using(laws::proofs::Tests::covers_one), unfolding(model::specs::Reading::shared))]
pub fn common_class(port: u64, p: Place) -> Class
    ensures { means result ≡ class_of (caller port) (common p.0) }
{
    match port {
        1 if is_of(registers::TX_DISABLE, p) => Class::LowFour,
        1 if is_of(registers::POWER, p) => Class::LowThree,
        1 if is_shared(p) => Class::All,
        _ => Class::Nothing,
    }
}
