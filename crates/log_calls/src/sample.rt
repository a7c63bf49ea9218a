// The sample at a position of a log.
// Proved: for every memory, used number and position, the refusal, where the sample lies and its bytes are those of document 02's
// Ask 1 (log_model/specs).
ghost use Rattle.std.specs.Prelude.{◌≡◌, ◌≤◌, ◌<◌, length, IfOk, IfErr};
ghost use Rattle.std.specs.List.{concat};
ghost use Rattle.log_model.specs.Log.{total, place_of};
ghost use Rattle.log_model.specs.Outcomes.{Placed, Shown};
ghost use Rattle.refusal.specs.Numbers.{number};

use super::walk::sound_blocks;
use log_block::{BLOCK_LEN, Block, ROOM_AT, SAMPLE_LEN};
use refusal::Refusal;

// Where the sample at a position of some blocks begins: goes over them by their counts.
#[tactic(auto, using(crate::proofs::sample::Laws::none_yet, crate::proofs::sample::Laws::passed_on))]
fn find(blocks: &[Block], position: u64) -> Result<u64, Refusal>
    ensures accepted { IfOk result (λ start. (position < total (concat blocks.now) (length blocks.now)) × (start ≡ place_of (concat blocks.now) (length blocks.now) position)) }
    ensures refused { IfErr result (λ r. (total (concat blocks.now) (length blocks.now) ≤ position) × (number r ≡ 17)) }
{
    let mut left = position;
    // `i` is the block's number, from which the place of its samples is computed; no slice is indexed by it.
    for (i, block) in blocks.iter().enumerate() {
        let count = u64::from(log_block::count_of(block));
        if left < count {
            let start = BLOCK_LEN * i + ROOM_AT + SAMPLE_LEN * left as usize;
            return Ok(start as u64);
        }
        left -= count;
    }
    Err(Refusal::NoSuchSample)
}

// Where the sample at a position begins: below 2 to the 41st, since the numbers of sound blocks end at 4294967295.
pub fn sample_place(log: &[u8], used: u64, position: u64) -> Result<u64, Refusal>
    ensures accepted { IfOk result (λ start. Placed log.now used position 0 start × (start < 2199023255552)) }
    ensures refused { IfErr result (λ r. Placed log.now used position (number r) 0) }
{
    let blocks = sound_blocks(log, used)?;
    find(blocks, position)
}

// The sample at a position, a part of the log; empty where it is refused.
pub fn sample_view(log: &[u8], used: u64, position: u64) -> &[u8]
    ensures { Shown log.entry used position result }
{
    match sample_place(log, used, position) {
        Ok(start) => {
            let start = start as usize;
            &log[start..start + SAMPLE_LEN]
        }
        Err(_) => &log[..0],
    }
}
