// One block of a log, on lent memory: whether it is sound, its number, and the blocks that are written.
// Proved: each function gives the definition that its contract cites (document 02, Ask 1 and Ask 9).
#![tactic(auto)]

ghost use Rattle.std.specs.Prelude.{◌≡◌, ◌%◌, ◌<◌, ◌≤◌, length};
ghost use Rattle.laws.specs.Lists.{at, table, patch, sum};
ghost use Rattle.block.specs.Block.{block_size, number, count, most_samples, samples_in, room_end, summary, sealed, holds, has_summary, summed, checked, sound_block, fresh, grown};

pub const BLOCK_LEN: usize = 512;

pub const SAMPLE_LEN: usize = 31;

pub const MOST_SAMPLES: u8 = 16;

const COUNT_AT: usize = 4;

// Where the room for samples begins, and where it ends.
pub const ROOM_AT: usize = 5;

pub const ROOM_END: usize = 501;

// 1 where the block has a summary.
pub const MARK_AT: usize = 504;

// Where the check is.
const CHECK_AT: usize = 510;

// A block, and one of its samples: the module's sample by its length alone, since a log knows of no module.
pub type Block = [u8; BLOCK_LEN];

pub type Sample = [u8; SAMPLE_LEN];

// The sum of some bytes, low sixteen bits. Apart from `codes::check_code`: one fold of the library each, which a generic one would not shorten.
fn sum16(bytes: &[u8]) -> u16
    ensures { result ≡ sum bytes.now % 65536 }
{
    bytes
        .iter()
        .fold(0, |sum: u16, byte| sum.wrapping_add(u16::from(*byte)))
}

// Whether some bytes are all 0. Not by `all`, which ends at the first that is not, and takes more than a block's 500 instructions.
fn is_blank(bytes: &[u8]) -> bool
    ensures { result ≡ holds 0 (length bytes.now) (λ j. 0) bytes.now }
{
    bytes.iter().fold(0, |seen, byte| seen | byte) == 0
}

// ---- its samples

// How many samples it has.
pub fn count_of(block: &Block) -> u8
    ensures { result ≡ count block.now }
{
    block[COUNT_AT]
}

// Its samples, in order. That the count is at most 16 is asked here and where samples are gone over: it is a byte of the block, which `grow`
// changes, so no type of the block holds it.
#[tactic(auto, using(crate::proofs::Chunks::chunks_front, crate::proofs::Chunks::samples_chunks))]
pub fn samples_of(block: &Block) -> &[Sample]
    requires { count block.now ≤ most_samples }
    ensures { result.now ≡ samples_in block.now }
{
    let (room, _) = block[ROOM_AT..ROOM_END].as_chunks::<SAMPLE_LEN>();
    &room[..usize::from(count_of(block))]
}

// ---- bytes 501 to 511

// The first three bytes of its summary: the OR of each of the three status bytes over its samples.
fn status_of(block: &Block) -> [u8; 3]
    requires { count block.now ≤ most_samples }
    ensures { result ≡ table 3 (summary (at block.now)) }
{
    let samples = samples_of(block);
    let mut first = 0;
    let mut second = 0;
    let mut third = 0;
    for sample in samples {
        first |= sample[0];
        second |= sample[1];
        third |= sample[2];
    }
    [first, second, third]
}

// Whether bytes 501 to 509 are the summary of the samples.
fn has_summary(block: &Block) -> bool
    requires { count block.now ≤ most_samples }
    ensures { result ≡ has_summary block.now }
{
    (block[ROOM_END..MARK_AT] == status_of(block)[..])
        & (block[MARK_AT] == 1)
        & is_blank(&block[MARK_AT + 1..CHECK_AT])
}

// Whether they are that, or all 0.
fn is_summed(block: &Block) -> bool
    requires { count block.now ≤ most_samples }
    ensures { result ≡ summed block.now }
{
    if block[MARK_AT] == 0 {
        return is_blank(&block[ROOM_END..CHECK_AT]);
    }
    has_summary(block)
}

// Whether bytes 510 and 511 are the check of those before them.
#[tactic(auto, using(crate::proofs::Ends::checked_is))]
fn is_checked(block: &Block) -> bool
    ensures { result ≡ checked block.now }
{
    u16::from_be_bytes([block[CHECK_AT], block[CHECK_AT + 1]]) == sum16(&block[..CHECK_AT])
}

// Writes the summary.
#[tactic(auto, using(crate::proofs::Ends::nine, crate::proofs::Ends::summary_put))]
fn put_summary(block: &mut Block)
    requires { count block.old ≤ most_samples }
    ensures { block.new ≡ patch room_end 9 (summary (at block.old)) block.old }
{
    let [first, second, third] = status_of(block);
    block[ROOM_END..CHECK_AT].copy_from_slice(&[first, second, third, 1, 0, 0, 0, 0, 0]);
}

// Writes them all: the one function that does.
fn seal(block: &mut Block)
    requires { count block.old ≤ most_samples }
    ensures { block.new ≡ table block_size (sealed (at block.old)) }
{
    put_summary(block);
    let check = sum16(&block[..CHECK_AT]).to_be_bytes();
    block[CHECK_AT..].copy_from_slice(&check);
}

// ---- a block that is there

// Whether a block is sound by itself: its unused room is 0, it has no summary or that of its samples, and its check is the sum.
#[tactic(auto, using(crate::proofs::Ends::part_blank), unfolding(block::specs::Block::sound_block))]
pub fn is_sound(block: &Block) -> bool
    ensures { result ≡ sound_block block.now }
{
    let count = count_of(block);
    if MOST_SAMPLES < count {
        return false;
    }
    let end = ROOM_AT + SAMPLE_LEN * usize::from(count);
    if !is_blank(&block[end..ROOM_END]) {
        return false;
    }
    is_summed(block) && is_checked(block)
}

// Its number.
pub fn number_of(block: &Block) -> u32
    ensures { result ≡ number block.now }
{
    u32::from_be_bytes([block[0], block[1], block[2], block[3]])
}

// ---- a block that is written

// Makes it block `n` with no samples, whatever it held: any number, as it always was, of which four bytes are kept.
pub fn begin(block: &mut Block, n: u64)
    ensures { block.new ≡ fresh n }
{
    *block = [0; BLOCK_LEN];
    block[..COUNT_AT].copy_from_slice(&n.to_be_bytes()[4..]);
    seal(block);
}

// Puts one sample more into it.
pub fn grow(block: &mut Block, sample: &Sample)
    requires { count block.old < most_samples }
    ensures { block.new ≡ grown block.old sample.now }
{
    let count = count_of(block);
    let start = ROOM_AT + SAMPLE_LEN * usize::from(count);
    block[start..start + SAMPLE_LEN].copy_from_slice(sample);
    block[COUNT_AT] = count + 1;
    seal(block);
}
