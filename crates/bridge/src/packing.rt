// The answers of the calls as the numbers that C is handed: several bytes packed into one number, a refusal and a value beside it, and the
// parts of what a monitor or a limits call answers.
// Proved: each number is the one that specs/Packing.antt says.
ghost use Rattle.std.specs.Prelude.{◌≡◌, ◌<◌, ◌^◌, IfOk, IfErr};
ghost use Rattle.laws.specs.Tests.{given};
ghost use Rattle.laws.specs.Lists.{at};
ghost use Rattle.refusal.specs.Numbers.{number, number_of, says};
ghost use Rattle.readout.specs.Meaning.{page_number, four, monitor_says};
ghost use Rattle.bridge.specs.Packing.{byte_of, refusal_in, kind_in, value_in, limit_in};
ghost use Rattle.log_first.specs.Meaning.{found};
ghost use Rattle.bridge.specs.Face.{upper, value_of_first};

use both::Counts;
use readout::{Found, FourLimits, Monitored};
use refusal::Refusal;

// ---- bytes in one number

// Four bytes in one number, the first in bits 0 to 7.
pub fn packed(bytes: [u8; 4]) -> u32
    ensures { (byte_of 0 result ≡ at bytes 0) × (byte_of 1 result ≡ at bytes 1) × (byte_of 2 result ≡ at bytes 2) × (byte_of 3 result ≡ at bytes 3) }
{
    u32::from_le_bytes(bytes)
}

// A refusal alone. What is accepted has its own values in each of the next three, so they are three.
fn refused(refusal: Refusal) -> u32
    ensures { (byte_of 0 result ≡ number refusal) × (byte_of 1 result ≡ 0) × (byte_of 2 result ≡ 0) × (byte_of 3 result ≡ 0) }
{
    packed([refusal.into(), 0, 0, 0])
}

// Of a reset or a sample: the refusal, the operator's count, the recorder's.
pub fn report(answer: Result<Counts, Refusal>) -> u32
    ensures accepted { IfOk answer (λ n. (byte_of 0 result ≡ 0) × (byte_of 1 result ≡ n.operator) × (byte_of 2 result ≡ n.recorder) × (byte_of 3 result ≡ 0)) }
    ensures refused { IfErr answer (λ r. (byte_of 0 result ≡ number r) × (byte_of 1 result ≡ 0) × (byte_of 2 result ≡ 0) × (byte_of 3 result ≡ 0)) }
{
    answer.map_or_else(refused, |n| packed([0, n.operator, n.recorder, 0]))
}

// Of a read or a write: the refusal, the calling port's count.
pub fn answer(answer: Result<u8, Refusal>) -> u32
    ensures accepted { IfOk answer (λ n. (byte_of 0 result ≡ 0) × (byte_of 1 result ≡ n) × (byte_of 2 result ≡ 0) × (byte_of 3 result ≡ 0)) }
    ensures refused { IfErr answer (λ r. (byte_of 0 result ≡ number r) × (byte_of 1 result ≡ 0) × (byte_of 2 result ≡ 0) × (byte_of 3 result ≡ 0)) }
{
    answer.map_or_else(refused, |count| packed([0, count, 0, 0]))
}

// Of an identity: the refusal, the page, where the field starts there, its length.
pub fn place(answer: Result<Found, Refusal>) -> u32
    ensures accepted { IfOk answer (λ f. (byte_of 0 result ≡ 0) × (byte_of 1 result ≡ page_number f.page) × (byte_of 2 result ≡ f.start) × (byte_of 3 result ≡ f.length)) }
    ensures refused { IfErr answer (λ r. (byte_of 0 result ≡ number r) × (byte_of 1 result ≡ 0) × (byte_of 2 result ≡ 0) × (byte_of 3 result ≡ 0)) }
{
    answer.map_or_else(refused, |f| packed([0, f.page.into(), f.start, f.length]))
}

// How many values there are beside a refusal: 56 bits.
const VALUES: u64 = 1 << 56;

// Of a call on a log: the refusal, and the value beside it in bits 8 to 63.
pub fn told(answer: Result<u64, Refusal>) -> u64
    requires { IfOk answer (λ n. n < 2 ^ 56) }
    ensures accepted { IfOk answer (λ n. (byte_of 0 result ≡ 0) × (upper result ≡ n)) }
    ensures refused { IfErr answer (λ r. (byte_of 0 result ≡ number r) × (upper result ≡ 0)) }
{
    match answer {
        Ok(n) => 256 * n,
        Err(refusal) => u64::from(u8::from(refusal)),
    }
}

// Of the question: 0 for none, and else the position plus 1, its low 56 bits.
pub fn first(position: Option<u64>) -> u64
    ensures { (result ≡ value_of_first (given (found position))) × (result < 2 ^ 56) }
{
    match position {
        Some(n) => (n % VALUES + 1) % VALUES,
        None => 0,
    }
}

// ---- monitors

// 0 where it is not refused: C's number, as the next one's are.
pub fn monitor_refusal(m: Monitored) -> u8
    ensures { result ≡ refusal_in (monitor_says m) }
{
    match m {
        Monitored::Refused(refusal) => refusal.into(),
        _ => 0,
    }
}

// 1 degrees, 2 volts, 3 milliwatts, 4 milliamperes, 0 where there is no value.
pub fn kind(m: Monitored) -> u8
    ensures { result ≡ kind_in (monitor_says m) }
{
    match m {
        Monitored::Degrees(_) => 1,
        Monitored::Volts(_) => 2,
        Monitored::Milliwatts(_) => 3,
        Monitored::Milliamperes(_) => 4,
        Monitored::Nothing | Monitored::Refused(_) => 0,
    }
}

// 0.0 where there is no value.
pub fn value(m: Monitored) -> f64
    ensures { result ≡ value_in (monitor_says m) }
{
    match m {
        Monitored::Degrees(x)
        | Monitored::Volts(x)
        | Monitored::Milliwatts(x)
        | Monitored::Milliamperes(x) => x,
        Monitored::Nothing => 0.0,
        Monitored::Refused(_) => 0.0,
    }
}

// ---- limits

// One of the four, 0.0 where there is none of that number or they are refused.
pub fn limit(l: Result<FourLimits, Refusal>, which: u64) -> f64
    ensures { result ≡ limit_in (says four l) which }
{
    match l {
        Ok(x) => match which {
            0 => x.high_alarm,
            1 => x.low_alarm,
            2 => x.high_warning,
            3 => x.low_warning,
            _ => 0.0,
        },
        Err(_) => 0.0,
    }
}
