// Units, and monitors: which quantity a monitor shows, whether it is measured, and its number.
ghost use Rattle.std.specs.Prelude.{◌≡◌, not, ◌||◌, ◌+◌, ◌-◌, ◌*◌, ◌<◌, ◌≤◌, MatchResult};
ghost use Rattle.laws.specs.Bits.{has};
ghost use Rattle.model.specs.Map.{memory_size, status_at};
ghost use Rattle.model.specs.Samples.{word, degrees, value, quantities, offered};
ghost use Rattle.model.specs.Readout.{Exactly, in_unit, monitored};
ghost use Rattle.model.specs.Bytes.{memory_of};
ghost use Rattle.refusal.specs.Numbers.{number};
ghost use Rattle.alarms.specs.Decoded.{meant};

use address::{State, registers};
use alarms::Quantity;
use refusal::Refusal;

// ---- units

// A temperature, 1/256 degree C: a signed number cast to f64, by 256, and nothing is rounded.
fn degrees(n: u16) -> f64
    ensures { (result ≡ in_unit degrees n) × Exactly result (value degrees n) 256 }
{
    f64::from(alarms::signed_of(n)) / 256.0
}

// A number in the unit of a quantity.
#[tactic(auto, using(crate::proofs::Quantities::by_500, crate::proofs::Quantities::by_10000))]
pub fn in_unit(q: Quantity, n: u16) -> f64
    ensures { result ≡ in_unit (meant q).kind n }
{
    match q {
        Quantity::Temperature => degrees(n),
        Quantity::TxBias => f64::from(n) / 500.0, // milliamperes
        Quantity::Supply | Quantity::RxPower | Quantity::TxPower => f64::from(n) / 10000.0, // volts, milliwatts
    }
}

// The number of two bytes at `i` of the memory, in the unit of a quantity.
pub fn value_at(state: &State, q: Quantity, i: usize) -> f64
    requires { i + 1 < memory_size }
    ensures { result ≡ in_unit (meant q).kind (word (memory_of state.now) i) }
{
    in_unit(q, alarms::number(state, i))
}

// ---- monitors

// A monitor: its quantity, and which of its channels, from 0.
#[derive(Clone, Copy)]
pub struct Monitor {
    pub quantity: Quantity,
    pub channel: u8,
    ghost there: { channel < 4 },
}

impl TryFrom<u64> for Monitor {
    type Error = Refusal;

    ghost try_from_gives = { λ n r. MatchResult r (λ m. (meant m.quantity ≡ monitored n quantities) × (m.channel ≡ n - (monitored n quantities).number) × (n ≤ 13)) (λ e. (number e ≡ 13) × (13 < n)) };

    fn try_from(number: u64) -> Result<Monitor, Refusal> {
        let (quantity, first) = match number {
            0 => (Quantity::Temperature, 0),
            1 => (Quantity::Supply, 1),
            2..=5 => (Quantity::RxPower, 2),
            6..=9 => (Quantity::TxBias, 6),
            10..=13 => (Quantity::TxPower, 10),
            _ => return Err(Refusal::NoSuchMonitor),
        };
        Ok(Monitor {
            quantity,
            channel: (number - first) as u8,
        })
    }
}

impl Monitor {
    // Whether nothing is measured: while Data_Not_Ready is 1, or Tx power that byte 220 does not offer. Bit 0 is told as the definition tells it.
    pub fn is_unmeasured(self, state: &State) -> bool
        ensures { result ≡ (has 0 (memory_of state.now status_at) || not (offered (memory_of state.now) (meant self.quantity))) }
    {
        (address::stored(state, registers::STATUS) % 2 == 1)
            | ((self.quantity == Quantity::TxPower) & !alarms::offers_tx(state))
    }

    // Where a sample stores its number.
    pub fn stored_at(self) -> usize
        ensures { (result ≡ (meant self.quantity).stored_from + 2 * self.channel) × (result ≤ 56) }
    {
        usize::from(self.quantity.stored_in().place()) + 2 * usize::from(self.channel)
    }

    // Its number in its unit, as a sample stored it.
    pub fn value(self, state: &State) -> f64
        ensures { result ≡ in_unit (meant self.quantity).kind (word (memory_of state.now) ((meant self.quantity).stored_from + 2 * self.channel)) }
    {
        value_at(state, self.quantity, self.stored_at())
    }
}
