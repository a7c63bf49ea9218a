// The five quantities, and where they stand.
ghost use Rattle.std.specs.Prelude.{◌≡◌, ◌<◌, ◌≤◌, MatchResult};
ghost use Rattle.model.specs.Map.{paged};
ghost use Rattle.refusal.specs.Numbers.{number};
ghost use Rattle.address.specs.Meaning.{held_at};
ghost use Rattle.alarms.specs.Decoded.{quantity_number, meant};

use address::{Register, registers};
use refusal::Refusal;

#[derive(Clone, Copy, PartialEq, Eq)]
pub enum Quantity {
    Temperature,
    Supply,
    RxPower,
    TxBias,
    TxPower,
}

impl TryFrom<u64> for Quantity {
    type Error = Refusal;

    ghost try_from_gives = { λ n r. MatchResult r (λ q. quantity_number q ≡ n) (λ e. (number e ≡ 13) × (4 < n)) };

    fn try_from(number: u64) -> Result<Quantity, Refusal> {
        match number {
            0 => Ok(Quantity::Temperature),
            1 => Ok(Quantity::Supply),
            2 => Ok(Quantity::RxPower),
            3 => Ok(Quantity::TxBias),
            4 => Ok(Quantity::TxPower),
            _ => Err(Refusal::NoSuchMonitor),
        }
    }
}

impl Quantity {
    // The register that a sample stores its numbers in.
    pub fn stored_in(self) -> Register
        ensures { (held_at result ≡ (meant self).stored_from) × (held_at result ≤ 50) }
    {
        match self {
            Quantity::Temperature => registers::TEMPERATURE,
            Quantity::Supply => registers::SUPPLY,
            Quantity::RxPower => registers::RX_POWER,
            Quantity::TxBias => registers::TX_BIAS,
            Quantity::TxPower => registers::TX_POWER,
        }
    }

    // The register of page 03h that has its thresholds.
    pub fn limits_in(self) -> Register
        ensures { (held_at result ≡ paged 3 (meant self).limits_from) × (held_at result ≤ 576) }
    {
        match self {
            Quantity::Temperature => registers::TEMPERATURE_LIMITS,
            Quantity::Supply => registers::SUPPLY_LIMITS,
            Quantity::RxPower => registers::RX_POWER_LIMITS,
            Quantity::TxBias => registers::TX_BIAS_LIMITS,
            Quantity::TxPower => registers::TX_POWER_LIMITS,
        }
    }
}
