// What the calls of both modules share: their answers, the refusals that go by the call's own numbers, the count over pairs of bytes.
// Proved: each function gives the definition of ports that its contract cites, whatever the module.
#![tactic(auto)]

ghost use Rattle.std.specs.Prelude.{◌≡◌, not, ◌||◌, [], ◌∷◌, map, ◌<◌, ◌≤◌, ◌+◌, ◌*◌, eqb, ltb, length, IfOk};
ghost use Rattle.std.specs.Int.Bits.{bit_and, bit_xor};
ghost use Rattle.std.specs.Int.Count.{ones};
ghost use Rattle.laws.specs.Tests.{first_of};
ghost use Rattle.laws.specs.Lists.{at, sum};
ghost use Rattle.ports.specs.Ports.{nobody};
ghost use Rattle.ports.specs.Interrupt.{count_pair};
ghost use Rattle.ports.specs.Modules.{miscounted, beyond, across};
ghost use Rattle.refusal.specs.Numbers.{number_of};
ghost use Rattle.both.specs.Beside.{beside};
ghost use Rattle.both.specs.Ports.{port_number, IsPort};

use refusal::Refusal;

// ---- answers

// Both ports' counts after a reset or a sample.
#[derive(Clone, Copy, Debug, Default, PartialEq, Eq)]
pub struct Counts {
    pub operator: u8,
    pub recorder: u8,
}

// ---- the ports

#[derive(Clone, Copy, Debug, PartialEq, Eq)]
pub enum Port {
    Operator,
    Recorder,
}

impl TryFrom<u64> for Port {
    type Error = Refusal;

    ghost try_from_gives = { IsPort };

    fn try_from(number: u64) -> Result<Port, Refusal> {
        match number {
            1 => Ok(Port::Operator),
            2 => Ok(Port::Recorder),
            _ => Err(Refusal::NoSuchPort),
        }
    }
}

// The number that a caller says.
impl From<Port> for u64 {
    ghost from_gives = { λ port n. n ≡ port_number port };

    fn from(port: Port) -> u64 {
        match port {
            Port::Operator => 1,
            Port::Recorder => 2,
        }
    }
}

// Whether a port is neither: any number, and a test that can't fail, as it always was.
pub fn is_nobody(port: u64) -> bool
    ensures { result ≡ nobody port }
{
    Port::try_from(port).is_err()
}

// ---- refusals

// The most bytes that one read reads, and one write writes.
const READ_MOST: u64 = 128;

const WRITE_MOST: usize = 4;

// Where lower memory ends.
const LOWER: u64 = 128;

// The refusals 4 to 6 of a read, where addresses end at `reach`. "Of 0 or more than 128 bytes" is said as the paper says it, here and below.
pub fn check_read(reach: u64, address: u64, count: u64, room: usize) -> Result<(), Refusal>
    requires { 128 ≤ reach }
    ensures { number_of result ≡ first_of ((4, miscounted 128 count) ∷ (5, beyond reach address count) ∷ (6, ltb room count) ∷ []) }
{
    if (count == 0) | (READ_MOST < count) {
        return Err(Refusal::TransferSize);
    }
    if reach - count < address {
        return Err(Refusal::Range);
    }
    if room < count as usize {
        return Err(Refusal::OutputShort);
    }
    Ok(())
}

// The refusals 4 and 5 of a write of `n` bytes.
pub fn check_write(reach: u64, address: u64, n: usize) -> Result<(), Refusal>
    requires { 128 ≤ reach }
    ensures { number_of result ≡ first_of ((4, miscounted 4 n) ∷ (5, beyond reach address n || across address n) ∷ []) }
{
    if (n == 0) | (WRITE_MOST < n) {
        return Err(Refusal::TransferSize);
    }
    let count = n as u64;
    if (reach - count < address) | ((address < LOWER) & (LOWER - count < address)) {
        return Err(Refusal::Range);
    }
    Ok(())
}

// Bytes as a sample of `N`, or the refusals 3 and 8 of one: by whether each record is sound, which each module asks in its own way, and whether
// the bytes are that many.
pub fn check_sample<const N: usize>(
    first: bool,
    second: bool,
    bytes: &[u8],
) -> Result<&[u8; N], Refusal>
    ensures refusal { number_of result ≡ first_of ((3, not first || not second) ∷ (8, not (eqb (length bytes.now) N)) ∷ []) }
    ensures same { IfOk result (λ x. x.now ≡ bytes.now) }
{
    if !first | !second {
        return Err(Refusal::UnsoundRecord);
    }
    bytes.as_array().ok_or(Refusal::SampleSize)
}

// ---- the count

// The ones of a byte with its masked bits taken away, as the definition takes them away: by `flags & !mask` the proof does not close.
fn let_by(flags: u8, mask: u8) -> u8
    ensures { (result ≡ ones (bit_xor flags (bit_and flags mask))) × (result ≤ 8) }
{
    u8::count_ones(flags ^ (flags & mask)) as u8
}

// Pairs side by side in a record: `many` flag bytes from `flags` on, and the mask of each from `masks` on.
#[derive(Clone, Copy, Debug, PartialEq, Eq)]
pub struct Pairs {
    pub many: usize,
    pub flags: usize,
    pub masks: usize,
    ghost few: { many < 32 },
}

// The count over such pairs of the record at `base` of any memory that has them: each module's state has another length. A state and a base come
// apart, here and in `record`: a struct of both would be two, one that changes the state and one that looks.
pub fn count_beside(state: &[u8], base: usize, pairs: Pairs) -> u8
    requires { (base + (pairs.flags + pairs.many) ≤ length state.now) × (base + (pairs.masks + pairs.many) ≤ length state.now) }
    ensures { (result ≡ sum (map (count_pair (λ k. at state.now (base + k))) (beside pairs.many pairs.flags pairs.masks))) × (result ≤ 8 * pairs.many) }
{
    let flags_at = base + pairs.flags;
    let masks_at = base + pairs.masks;
    let flags = &state[flags_at..flags_at + pairs.many];
    let masks = &state[masks_at..masks_at + pairs.many];
    let mut count: u8 = 0;
    for (flag, mask) in flags.iter().zip(masks) {
        count += let_by(*flag, *mask);
    }
    count
}
