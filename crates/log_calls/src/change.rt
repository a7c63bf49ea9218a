// The calls that change a log of samples: a sample added, a power-up.
// Proved: for every memory, used number and sample, the refusal, the used number after it and the bytes left are those of document
// 02's Ask 1 and Ask 9 (block/specs, log_model/specs).
ghost use Rattle.std.specs.Prelude.{◌≡◌, false, ◌+◌, ◌-◌, ◌*◌, ◌≤◌, ◌<◌, ◌∷◌, [], ◌&&◌, ◌||◌, leb, eqb, length, IfOk, IfErr, if◌then◌else◌};
ghost use Rattle.std.specs.List.{concat};
ghost use Rattle.laws.specs.Tests.{first_of};
ghost use Rattle.block.specs.Block.{block_size, count, most_samples, grown};
ghost use Rattle.log_model.specs.Log.{blocks, block, last_number, needs_new, put, none_left, new_block, unsound};
ghost use Rattle.log_model.specs.Outcomes.{power_up_refusal, Added, Opened};
ghost use Rattle.refusal.specs.Numbers.{number, number_of};

use super::walk::sound_blocks;
use log_block::{BLOCK_LEN, Block, SAMPLE_LEN, Sample};
use refusal::Refusal;

// ---- the last used block

// The number of the last of some blocks, 0 where there is none.
#[tactic(auto, using(crate::proofs::Blocks::last_joined))]
fn last_number(blocks: &[Block]) -> u32
    ensures { result ≡ last_number (concat blocks.now) (length blocks.now) }
{
    match blocks {
        [.., last] => log_block::number_of(last),
        [] => 0,
    }
}

// Whether a sample needs a new block.
#[tactic(auto, using(crate::proofs::Blocks::full_joined))]
fn needs_new(blocks: &[Block]) -> bool
    ensures { result ≡ needs_new (concat blocks.now) (length blocks.now) }
{
    match blocks {
        [.., last] => log_block::MOST_SAMPLES <= log_block::count_of(last),
        [] => true,
    }
}

// Whether there can be no new block behind the used ones.
fn none_left(log: &[u8], used: &[Block]) -> bool
    ensures { result ≡ (leb (blocks log.now) (length used.now) || eqb (last_number (concat used.now) (length used.now)) 4294967295) }
{
    (log.len() / BLOCK_LEN <= used.len()) | (last_number(used) == u32::MAX)
}

// ---- where a sample goes

// The block that takes a sample, by its number from 0.
enum Target {
    // The last used one.
    Last(usize),
    // The one after the used ones, which is to be opened first.
    New(usize),
}

// ---- refusals

// The block that takes a sample of the right length; refused where the sample is.
#[tactic(auto, using(crate::proofs::Blocks::cut_none_left, crate::proofs::Blocks::cut_full, crate::proofs::Blocks::cut_length))]
fn target_block(log: &[u8], used: u64) -> Result<Target, Refusal>
    ensures code { number_of result ≡ first_of ((15, unsound log.now used) ∷ (14, needs_new log.now used && none_left log.now used) ∷ []) }
    ensures accepted { IfOk result (λ target. target ≡ (if needs_new log.now used then Target.New used else Target.Last (used - 1))) }
{
    let blocks = sound_blocks(log, used)?;
    if !needs_new(blocks) {
        return Ok(Target::Last(blocks.len() - 1));
    }
    if none_left(log, blocks) {
        return Err(Refusal::LogFull);
    }
    Ok(Target::New(blocks.len()))
}

// Refused where a power-up is.
#[tactic(auto, using(crate::proofs::Blocks::cut_none_left))]
fn check_power_up(log: &[u8], used: u64) -> Result<(), Refusal>
    ensures { number_of result ≡ power_up_refusal log.now used }
{
    let blocks = sound_blocks(log, used)?;
    if none_left(log, blocks) {
        return Err(Refusal::LogFull);
    }
    Ok(())
}

// ---- blocks that are written: each found by `split_at_mut`, since of what is written through `as_chunks_mut` nothing is known

// Opens the block after the used ones.
fn open_block(log: &mut [u8], used: usize)
    requires { none_left log.old used ≡ false }
    ensures { log.new ≡ put log.old used (new_block log.old used) }
{
    let (blocks, _) = log.as_chunks();
    let number = last_number(&blocks[..used]) + 1;
    let (_, rest) = log.split_at_mut(BLOCK_LEN * used);
    log_block::begin(rest.first_chunk_mut().unwrap(), u64::from(number));
}

// Puts a sample into block `i`.
fn grow_block(log: &mut [u8], i: usize, sample: &Sample)
    requires { (block_size * i + block_size ≤ length log.old) × (count (block log.old i) < most_samples) }
    ensures { log.new ≡ put log.old i (grown (block log.old i) sample.now) }
{
    let (_, rest) = log.split_at_mut(BLOCK_LEN * i);
    log_block::grow(rest.first_chunk_mut().unwrap(), sample);
}

// ---- the calls that change a log

// Opens a new block, as a module that was powered up does: the used number after it.
pub fn power_up(log: &mut [u8], used: u64) -> Result<u64, Refusal>
    ensures accepted { IfOk result (λ n. Opened log.old used 0 n log.new) }
    ensures refused { IfErr result (λ r. Opened log.old used (number r) 0 log.new) }
{
    check_power_up(log, used)?;
    open_block(log, used as usize);
    Ok(used + 1)
}

// Adds a sample, in the last used block if that has room, else in a new one: the used number after it.
pub fn add(log: &mut [u8], used: u64, sample: &[u8]) -> Result<u64, Refusal>
    ensures accepted { IfOk result (λ n. Added log.old used sample.now 0 n log.new) }
    ensures refused { IfErr result (λ r. Added log.old used sample.now (number r) 0 log.new) }
{
    let sample = sample.as_array::<SAMPLE_LEN>().ok_or(Refusal::SampleSize)?;
    match target_block(log, used)? {
        Target::Last(number) => {
            grow_block(log, number, sample);
            Ok(used)
        }
        Target::New(number) => {
            open_block(log, number);
            grow_block(log, number, sample);
            Ok(number as u64 + 1)
        }
    }
}
