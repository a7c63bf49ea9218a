// A sample decoded, the one alarm rule, and the flag bytes of a sample.
// Proved: the twelve bytes are those of the definition `conds` (document 01, "Samples and conditions").
#![tactic(auto)]

ghost use Rattle.std.specs.Prelude.{◌≡◌, ◌+◌, ◌*◌, ◌<◌, ◌≤◌, ℕ, ℤ, pos, length};
ghost use Rattle.std.specs.Int.Signed.{lt_z};
ghost use Rattle.laws.specs.Tests.{one};
ghost use Rattle.laws.specs.Lists.{at, table};
ghost use Rattle.model.specs.Map.{flags, paged};
ghost use Rattle.model.specs.Samples.{word, signed, four_of, offered, tx_power, sample_size, conds};
ghost use Rattle.model.specs.Bytes.{memory_of};
ghost use Rattle.alarms.specs.Decoded.{meant, row, rows, cell};

use address::{State, registers};
use std::array;

mod quantities;

pub use quantities::Quantity;

// ---- a sample: three status bytes, then fourteen numbers of two bytes. `log_block` has the same type, so that a log knows of no module.

pub type Sample = [u8; SAMPLE_LEN];

pub const SAMPLE_LEN: usize = 31;

pub const TEMPERATURE_IN: usize = 3;

pub const SUPPLY_IN: usize = TEMPERATURE_IN + 2;

pub const RX_POWER_IN: usize = SUPPLY_IN + 2;

pub const TX_BIAS_IN: usize = RX_POWER_IN + 8;

pub const TX_POWER_IN: usize = TX_BIAS_IN + 8;

// ---- numbers: at a place of any memory that has it, as the definitions say it

// The number of two bytes at `i`, high byte first.
pub fn number(s: &[u8], i: usize) -> u16
    requires { i + 1 < length s.now }
    ensures { result ≡ word (at s.now) i }
{
    u16::from_be_bytes([s[i], s[i + 1]])
}

// Four numbers from `i` on: a quantity's channels, or its thresholds. By `from_fn`: `w` is a channel's number, and indexes nothing by itself.
fn row_at(s: &[u8], i: usize) -> [u16; 4]
    requires { i + 7 < length s.now }
    ensures { result ≡ row s.now i }
{
    array::from_fn(|w| number(s, i + 2 * w))
}

// Three rows of four from `i` on: Rx power, Tx bias, Tx power.
fn rows_at(s: &[u8], i: usize) -> [[u16; 4]; 3]
    requires { i + 23 < length s.now }
    ensures { result ≡ rows s.now i }
{
    // written out: the closure of `array::from_fn` would need a `requires` of its own
    [row_at(s, i), row_at(s, i + 8), row_at(s, i + 16)]
}

// The thresholds of a quantity.
pub fn limits_at(state: &State, q: Quantity) -> [u16; 4]
    ensures { result ≡ row state.now (paged 3 (meant q).limits_from) }
{
    row_at(state, usize::from(q.limits_in().place()))
}

// Those of Rx power, Tx bias and Tx power.
fn channel_limits(state: &State) -> [[u16; 4]; 3]
    ensures { result ≡ rows state.now (paged 3 176) }
{
    // written out: by `map` over the three the proof does not close
    [
        limits_at(state, Quantity::RxPower),
        limits_at(state, Quantity::TxBias),
        limits_at(state, Quantity::TxPower),
    ]
}

// ---- the alarm rule

// Sixteen bits as a signed number.
pub fn signed_of(n: u16) -> i16
    ensures { result ≡ signed n }
{
    n.cast_signed()
}

// What sixteen bits are read as: `u16` without a sign, `i16` with one.
trait Reading {
    // The number that they stand for.
    ghost whole: { ℕ → ℤ };

    fn is_below(a: u16, b: u16) -> bool
        ensures { result ≡ lt_z (whole a) (whole b) };
}

impl Reading for u16 {
    ghost whole = { pos };

    fn is_below(a: u16, b: u16) -> bool {
        a < b
    }
}

impl Reading for i16 {
    ghost whole = { signed };

    fn is_below(a: u16, b: u16) -> bool {
        signed_of(a) < signed_of(b)
    }
}

// 1 where the number of `a` is below that of `b`.
fn below<T: Reading>(a: u16, b: u16) -> u8
    ensures { (result ≡ one (lt_z (T.whole a) (T.whole b))) × (result ≤ 1) }
{
    u8::from(T::is_below(a, b))
}

// The four conditions of a number against its thresholds: high alarm, low alarm, high warning, low warning, from bit 3 down. Bits are put together, and
// told, by numbers, here and below, as the definitions do it; `|`, `<<` and `&` would be no plainer.
fn four_of<T: Reading>(n: u16, t: [u16; 4]) -> u8
    ensures { (result ≡ four_of (T.whole n) (λ w. T.whole (at t w))) × (result ≤ 15) }
{
    8 * below::<T>(t[0], n)
        + 4 * below::<T>(n, t[1])
        + 2 * below::<T>(t[2], n)
        + below::<T>(n, t[3])
}

// One rule for four channels by three quantities: channel `c` of quantity `q`, in both arrays of three rows of four (document 01's named form).
fn rule(x: [[u16; 4]; 3], t: [[u16; 4]; 3], q: usize, c: usize) -> u8
    requires { (q < 3) × (c < 4) }
    ensures { (result ≡ four_of (pos (cell x q c)) (λ w. pos (cell t q w))) × (result ≤ 15) }
{
    four_of::<u16>(x[q][c], t[q])
}

// Flag byte `j` of a quantity: an odd channel in bits 7 to 4, the even one after it in bits 3 to 0.
fn flag_byte(x: [[u16; 4]; 3], t: [[u16; 4]; 3], q: usize, j: usize) -> u8
    requires { (q < 3) × (j < 2) }
    ensures { result ≡ 16 * four_of (pos (cell x q (2 * j))) (λ w. pos (cell t q w)) + four_of (pos (cell x q (2 * j + 1))) (λ w. pos (cell t q w)) }
{
    16 * rule(x, t, q, 2 * j) + rule(x, t, q, 2 * j + 1)
}

// ---- the flag bytes of a sample

// That of a quantity with one channel, in bits 7 to 4: its number stands at `i` of the sample.
fn single<T: Reading>(state: &State, q: Quantity, x: &Sample, i: usize) -> u8
    requires { i + 1 < sample_size }
    ensures { result ≡ 16 * four_of (T.whole (word (at x.now) i)) (λ w. T.whole (at (row state.now (paged 3 (meant q).limits_from)) w)) }
{
    16 * four_of::<T>(number(x, i), limits_at(state, q))
}

// Whether Tx power is offered.
pub fn offers_tx(state: &State) -> bool
    ensures { result ≡ offered (memory_of state.now) tx_power }
{
    address::stored(state, registers::MONITORS_OFFERED) / 4 % 2 == 1
}

// The conditions of the twelve flag bytes.
#[tactic(auto, unfolding(laws::specs::Lists::table, model::specs::Samples::conds, model::specs::Samples::conditions))]
pub fn conditions(state: &State, x: &Sample) -> [u8; address::FLAGS_LEN]
    ensures { result ≡ table flags.many (λ k. conds (memory_of state.now) x.now (flags.first + k)) }
{
    let v = rows_at(x, RX_POWER_IN);
    let t = channel_limits(state);
    let tx = offers_tx(state);
    [
        x[0],
        x[1],
        x[2],
        single::<i16>(state, Quantity::Temperature, x, TEMPERATURE_IN),
        single::<u16>(state, Quantity::Supply, x, SUPPLY_IN),
        0,
        flag_byte(v, t, 0, 0),
        flag_byte(v, t, 0, 1),
        flag_byte(v, t, 1, 0),
        flag_byte(v, t, 1, 1),
        if tx { flag_byte(v, t, 2, 0) } else { 0 },
        if tx { flag_byte(v, t, 2, 1) } else { 0 },
    ]
}
