// Why a call is refused: the papers' refusals by name, one enum for all calls. A call answers `Result<.., Refusal>`; the numbers are those
// of include/zikhrodan.h, which has their words too.
// Proved: a refusal made a number is the number that specs/Numbers.antt says.
#![tactic(auto)]

ghost use Rattle.std.specs.Prelude.{◌≡◌};
ghost use Rattle.refusal.specs.Numbers.{number, number_of};

#[derive(Clone, Copy, Debug, PartialEq, Eq)]
pub enum Refusal {
    StateSize = 1,
    NoSuchPort = 2,
    UnsoundRecord = 3,
    TransferSize = 4,
    Range = 5,
    OutputShort = 6,
    NotItsOwn = 7,
    SampleSize = 8,
    ImageSize = 9,
    CheckCode = 10,
    NoSoundPage = 11,
    NoSuchField = 12,
    NoSuchMonitor = 13,
    LogFull = 14,
    UnsoundLog = 15,
    NoSuchSample = 17,
}

impl From<Refusal> for u8 {
    ghost from_gives = { λ refusal n. n ≡ number refusal };

    fn from(refusal: Refusal) -> u8 {
        refusal as u8
    }
}

// The number of an answer's refusal, 0 where it is none.
pub fn code<T: Drop>(answer: Result<T, Refusal>) -> u8
    ensures { result ≡ number_of answer }
{
    answer.map_or_else(u8::from, |_| 0)
}
