// When did that line die? The first sample of a log that has a status bit.
// Proved: for every memory, sound or not, used number and bit, the answer is that of document 02's Ask 9 (question/specs).
// To be seen in the code, and not proved: of a block that is passed over three bytes are looked at.
#![tactic(auto)]

ghost use Rattle.std.specs.Prelude.{◌≡◌, true, false, ◌≤◌, ◌<◌, length, OnOk, IfErr, if◌then◌else◌};
ghost use Rattle.std.specs.List.{concat};
ghost use Rattle.laws.specs.Words.{some};
ghost use Rattle.block.specs.Block.{count, most_samples};
ghost use Rattle.question.specs.Search.{lit, first_in, passed, first_of_block, first_with, crowded, refused, given, first_told};
ghost use Rattle.refusal.specs.Numbers.{number, says};
ghost use Rattle.log_first.specs.Meaning.{found};

use log_block::{Block, MARK_AT, MOST_SAMPLES, ROOM_END, Sample, count_of, samples_of};
use refusal::Refusal;

// ---- a status bit

const STATUS_BITS: u64 = 24;

// A bit of the three status bytes: 8 times its byte, 0 to 2, plus the bit.
#[derive(Clone, Copy)]
struct StatusBit {
    number: u64,
    ghost small: { number < 24 },
}

impl StatusBit {
    // Whether some bytes that begin with three status bytes have it, told as the definition tells a bit.
    fn is_in(self, bytes: &[u8]) -> bool
        requires { 3 ≤ length bytes.now }
        ensures { result ≡ lit self.number bytes.now }
    {
        (bytes[(self.number / 8) as usize] >> (self.number % 8)) % 2 == 1
    }
}

// ---- counts

// Refused 15 where one of some blocks has a count above 16.
fn check_counts(blocks: &[Block]) -> Result<(), Refusal>
    ensures accepted { OnOk result (crowded (concat blocks.now) (length blocks.now) ≡ false) }
    ensures refused { IfErr result (λ r. (crowded (concat blocks.now) (length blocks.now) ≡ true) × (number r ≡ 15)) }
{
    if blocks.iter().any(|block| MOST_SAMPLES < count_of(block)) {
        return Err(Refusal::UnsoundLog);
    }
    Ok(())
}

// ---- one block

// Whether its summary excludes the bit.
#[tactic(auto, using(crate::proofs::Laws::passed_marked))]
fn is_passed(block: &Block, bit: StatusBit) -> bool
    ensures { result ≡ passed bit.number block.now }
{
    (block[MARK_AT] == 1) && !bit.is_in(&block[ROOM_END..MARK_AT])
}

// The first of some samples that has the bit.
fn first_among(samples: &[Sample], bit: StatusBit) -> Option<usize>
    ensures { found result ≡ first_in bit.number samples.now }
{
    samples.iter().position(|sample| bit.is_in(sample))
}

// The first of a block's samples that has it: by its count alone, none, where its summary excludes the bit. That the count is at most 16 no type
// holds (log_block/src/lib.rt).
fn in_block(block: &Block, bit: StatusBit) -> Option<usize>
    requires { count block.now ≤ most_samples }
    ensures { found result ≡ first_of_block bit.number block.now }
{
    if is_passed(block, bit) {
        return None;
    }
    first_among(samples_of(block), bit)
}

// ---- the question

// The answer once a sample is found: the blocks behind its own are still asked for their counts.
fn found_at(position: u64, behind: &[Block]) -> Result<Option<u64>, Refusal>
    ensures { says found result ≡ (if crowded (concat behind.now) (length behind.now) then refused 15 else given (some position)) }
{
    check_counts(behind)?;
    Ok(Some(position))
}

// The first sample of some blocks that has the bit; refused 15 where one of them has a count above 16.
fn search(blocks: &[Block], bit: StatusBit) -> Result<Option<u64>, Refusal>
    ensures { says found result ≡ (if crowded (concat blocks.now) (length blocks.now) then refused 15 else given (first_with (concat blocks.now) (length blocks.now) bit.number)) }
{
    let mut before = 0;
    let mut rest = blocks;
    while let [block, behind @ ..] = rest {
        let count = count_of(block);
        if MOST_SAMPLES < count {
            return Err(Refusal::UnsoundLog);
        }
        if let Some(k) = in_block(block, bit) {
            let position = before + k as u64;
            return found_at(position, behind);
        }
        before += u64::from(count);
        rest = behind;
    }
    Ok(None)
}

// The first sample that has a status bit: 8 times its byte, 0 to 2, plus the bit. Another number is refused last, behind the counts. A log
// and its used number are one from `used_blocks` on.
pub fn first_with(log: &[u8], used: u64, bit: u64) -> Result<Option<u64>, Refusal>
    ensures { says found result ≡ first_told log.now used bit }
{
    let blocks = log_calls::walk::used_blocks(log, used)?;
    if bit < STATUS_BITS {
        return search(blocks, StatusBit { number: bit });
    }
    check_counts(blocks)?;
    Err(Refusal::NoSuchSample)
}
