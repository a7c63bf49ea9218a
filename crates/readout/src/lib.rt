// Identity, monitors and limits: the calls that only read. Nothing need be checked first: each call refuses what it cannot take. A field, a
// monitor and a quantity come as the numbers that C says.
// Proved: what each call answers is, for every input, the model's (document 01, "Identity, monitors, limits").
#![tactic(auto)]

ghost use Rattle.std.specs.Prelude.{◌≡◌, IfOk, IfErr, MatchResult};
ghost use Rattle.model.specs.Refusals.{identity_refusal};
ghost use Rattle.model.specs.Readout.{field_start, field_length, measured, limits};
ghost use Rattle.model.specs.Bytes.{memory_of};
ghost use Rattle.model.specs.Outcomes.{Located, Viewed, given, monitor_told, limits_told};
ghost use Rattle.refusal.specs.Numbers.{number, number_of, says};
ghost use Rattle.alarms.specs.Decoded.{quantity_number, meant};
ghost use Rattle.readout.specs.Meaning.{page_number, field_number, four, monitor_says};

use address::{STATE_LEN, State};
use alarms::Quantity;
use fields::Field;
use refusal::Refusal;
use units::Monitor;

mod fields;
mod units;

// ---- identity

// The page that an identity field is taken from.
#[derive(Clone, Copy, PartialEq, Eq)]
pub enum Page {
    Live = 1,
    Factory = 2,
}

impl From<Page> for u8 {
    ghost from_gives = { λ page n. n ≡ page_number page };

    fn from(page: Page) -> u8 {
        page as u8
    }
}

// Where an identity field lies: its page, where it starts there, and its length.
#[derive(Clone, Copy)]
pub struct Found {
    pub page: Page,
    pub start: u8,
    pub length: u8,
}

// A field of a sound page.
fn found_in(page: Page, bytes: &codes::Page, field: Field) -> Found
    ensures { (result.page ≡ page) × (result.start ≡ field_start (field_number field)) × (result.length ≡ field_length bytes.now (field_number field)) }
{
    Found {
        page,
        start: field.start(),
        length: field.length_in(bytes),
    }
}

// The place of an identity field.
#[tactic(auto, using(crate::proofs::Identity::live_place, crate::proofs::Identity::factory_place))]
pub fn identity_place(live: &[u8], factory: &[u8], field: u64) -> Result<Found, Refusal>
    ensures accepted { IfOk result (λ f. Located live.now factory.now field 0 (page_number f.page) f.start f.length) }
    ensures refused { IfErr result (λ r. Located live.now factory.now field (number r) 0 0 0) }
{
    let field = Field::try_from(field)?;
    if let Some(page) = fields::sound(live) {
        return Ok(found_in(Page::Live, page, field));
    }
    let page = fields::sound(factory).ok_or(Refusal::NoSoundPage)?;
    Ok(found_in(Page::Factory, page, field))
}

// Whether an identity field is refused, and why.
pub fn identity_refusal(live: &[u8], factory: &[u8], field: u64) -> Result<(), Refusal>
    ensures { number_of result ≡ identity_refusal live.now factory.now field }
{
    identity_place(live, factory, field)?;
    Ok(())
}

// The identity field itself, a part of the page it came from; empty where it is refused.
pub fn identity_view<'a>(live: &'a [u8], factory: &'a [u8], field: u64) -> &'a [u8]
    ensures { Viewed live.entry factory.entry field result }
{
    let Ok(found) = identity_place(live, factory, field) else {
        return &live[..0];
    };
    let start = usize::from(found.start);
    let end = start + usize::from(found.length);
    match found.page {
        Page::Live => &live[start..end],
        Page::Factory => &factory[start..end],
    }
}

// ---- monitors

// What a monitor answers: a number in its unit, or nothing measured, or a refusal. Its refusal is one of its cases, as document 01 names the form.
#[derive(Clone, Copy)]
pub enum Monitored {
    Degrees(f64),
    Volts(f64),
    Milliwatts(f64),
    Milliamperes(f64),
    Nothing,
    Refused(Refusal),
}

// A value of a quantity.
fn shown(q: Quantity, x: f64) -> Monitored
    ensures { monitor_says result ≡ given (measured (meant q).kind x) }
{
    match q {
        Quantity::Temperature => Monitored::Degrees(x),
        Quantity::Supply => Monitored::Volts(x),
        Quantity::RxPower | Quantity::TxPower => Monitored::Milliwatts(x),
        Quantity::TxBias => Monitored::Milliamperes(x),
    }
}

// What monitor `number`, any, answers, or why it is refused: a `Result`, for `?`.
#[tactic(auto, unfolding(model::specs::Readout::monitor))]
fn answered(state: &[u8], number: u64) -> Result<Monitored, Refusal>
    ensures { MatchResult result (λ m. monitor_says m ≡ monitor_told state.now number) (λ r. monitor_says (Monitored.Refused r) ≡ monitor_told state.now number) }
{
    let state = state.as_array::<STATE_LEN>().ok_or(Refusal::StateSize)?;
    let monitor = Monitor::try_from(number)?;
    if monitor.is_unmeasured(state) {
        return Ok(Monitored::Nothing);
    }
    Ok(shown(monitor.quantity, monitor.value(state)))
}

// Monitor `number`, 0 to 13 in sample order.
pub fn monitor(state: &[u8], number: u64) -> Monitored
    ensures { monitor_says result ≡ monitor_told state.now number }
{
    answered(state, number).unwrap_or_else(Monitored::Refused)
}

// ---- limits

// The limits of a quantity, in its unit.
#[derive(Clone, Copy)]
pub struct FourLimits {
    pub high_alarm: f64,
    pub low_alarm: f64,
    pub high_warning: f64,
    pub low_warning: f64,
}

fn limits_of(state: &State, q: Quantity) -> FourLimits
    ensures { four result ≡ limits (memory_of state.now) (quantity_number q) }
{
    let [high_alarm, low_alarm, high_warning, low_warning] = alarms::limits_at(state, q);
    FourLimits {
        high_alarm: units::in_unit(q, high_alarm),
        low_alarm: units::in_unit(q, low_alarm),
        high_warning: units::in_unit(q, high_warning),
        low_warning: units::in_unit(q, low_warning),
    }
}

// The limits of quantity 0 temperature, 1 supply, 2 Rx power, 3 bias, 4 Tx power.
pub fn limits(state: &[u8], quantity: u64) -> Result<FourLimits, Refusal>
    ensures { says four result ≡ limits_told state.now quantity }
{
    let state = state.as_array::<STATE_LEN>().ok_or(Refusal::StateSize)?;
    Ok(limits_of(state, Quantity::try_from(quantity)?))
}
