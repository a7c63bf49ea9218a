// The walk over the used blocks of a log: whether each is sound, and their numbers rise by one.
// Proved: refusal 15 of an add, a power-up and a reading is given exactly when document 02 says so (Ask 1, Ask 9; log_model/specs).
ghost use Rattle.std.specs.Prelude.{◌≡◌, ◌≤◌, ◌+◌, ◌*◌, true, false, length, IfOk, IfErr};
ghost use Rattle.std.specs.List.{concat};
ghost use Rattle.std.specs.Simd.{first_chunks};
ghost use Rattle.block.specs.Block.{block_size};
ghost use Rattle.log_model.specs.Log.{block, sound, misfit, unsound};
ghost use Rattle.refusal.specs.Numbers.{number};

use log_block::{BLOCK_LEN, Block, is_sound, number_of};
use refusal::Refusal;

// Whether each of some blocks is sound, and their numbers rise by one.
fn is_rising(blocks: &[Block]) -> bool
    ensures { result ≡ sound (concat blocks.now) (length blocks.now) }
{
    let follows = |pair: &[Block]| number_of(&pair[0]).checked_add(1) == Some(number_of(&pair[1]));
    blocks.iter().all(is_sound) && blocks.windows(2).all(follows)
}

// Whether the memory isn't whole blocks, or has fewer than `used`.
pub fn is_misfit(log: &[u8], used: u64) -> bool
    ensures { result ≡ misfit log.now used }
{
    let (blocks, rest) = log.as_chunks::<BLOCK_LEN>();
    !rest.is_empty() || (blocks.len() as u64) < used
}

// The used blocks: refused 15 where the memory isn't whole blocks, or has fewer than `used`.
#[tactic(auto, using(log_block::proofs::Chunks::chunks_front))]
pub fn used_blocks(log: &[u8], used: u64) -> Result<&[Block], Refusal>
    ensures accepted { IfOk result (λ blocks. (misfit log.now used ≡ false) × (blocks.now ≡ first_chunks block_size used log.now)) }
    ensures refused { IfErr result (λ r. (misfit log.now used ≡ true) × (number r ≡ 15)) }
{
    if is_misfit(log, used) {
        return Err(Refusal::UnsoundLog);
    }
    let (blocks, _) = log.as_chunks::<BLOCK_LEN>();
    Ok(&blocks[..used as usize])
}

// The used blocks of a sound log: refused 15 where it is not.
#[tactic(auto, using(crate::proofs::Blocks::cut_sound))]
pub fn sound_blocks(log: &[u8], used: u64) -> Result<&[Block], Refusal>
    ensures accepted { IfOk result (λ blocks. (unsound log.now used ≡ false) × (blocks.now ≡ first_chunks block_size used log.now)) }
    ensures few { IfOk result (λ blocks. used ≤ 4294967296) }
    ensures refused { IfErr result (λ r. (unsound log.now used ≡ true) × (number r ≡ 15)) }
{
    let blocks = used_blocks(log, used)?;
    if !is_rising(blocks) {
        return Err(Refusal::UnsoundLog);
    }
    Ok(blocks)
}

// Whether they are no sound log.
pub fn is_unsound(log: &[u8], used: u64) -> bool
    ensures { (result ≡ unsound log.now used) × (result ≡ false → used ≤ 4294967296) }
{
    sound_blocks(log, used).is_err()
}

// Block `i` of a log.
pub fn block_of(log: &[u8], i: usize) -> &Block
    requires { block_size * i + block_size ≤ length log.now }
    ensures { result.now ≡ block log.now i }
{
    let (blocks, _) = log.as_chunks::<BLOCK_LEN>();
    &blocks[i]
}
