// The reset, on lent memory.
// Proved: for every state and image, the refusal, the counts and the bytes left are those of the model's reset.
ghost use Rattle.std.specs.Prelude.{◌≡◌, ◌≤◌, ◌+◌, ◌*◌, IfOk, IfErr, if◌then◌else◌};
ghost use Rattle.laws.specs.Tests.{first_of};
ghost use Rattle.laws.specs.Lists.{at, patch};
ghost use Rattle.model.specs.Ports.{reset};
ghost use Rattle.model.specs.Map.{memory_size, record_size};
ghost use Rattle.model.specs.Refusals.{reset_rows};
ghost use Rattle.model.specs.Reset.{emptied, in_page02, fresh};
ghost use Rattle.model.specs.Outcomes.{Reported};
ghost use Rattle.refusal.specs.Numbers.{number, number_of};
ghost use Rattle.address.specs.Meaning.{held_at, length_of};

use address::{MEMORY_LEN, PlaceRun, Register, State, registers};
use both::Counts;
use refusal::Refusal;

// The factory image, a memory.
type Image = [u8; MEMORY_LEN];

// Bytes as an image, or the refusals 9 and 10.
fn check(bytes: &[u8]) -> Result<&Image, Refusal>
    ensures refusal { number_of result ≡ first_of (reset_rows bytes.now) }
    ensures same { IfOk result (λ image. image.now ≡ bytes.now) }
{
    let image: &Image = bytes.as_array().ok_or(Refusal::ImageSize)?;
    let (pages, _) = image.as_chunks::<{ address::PAGE_LEN }>();
    if !codes::are_right(&pages[1]) {
        return Err(Refusal::CheckCode);
    }
    Ok(image)
}

// Brings a run of the image's bytes.
fn bring_run(state: &mut State, image: &Image, run: PlaceRun)
    requires { run.first.0 + run.many ≤ memory_size }
    ensures { state.new ≡ patch run.first.0 run.many (λ j. at image.now (run.first.0 + j)) state.old }
{
    let first = usize::from(run.first);
    moves::copy(state, first, &image[first..first + run.many]);
}

// Brings all of them, save page 02h.
fn bring(state: &mut State, image: &Image)
    ensures { state.new ≡ patch 0 memory_size (λ i. if in_page02 i then at state.old i else at image.now i) state.old }
{
    bring_run(state, image, registers::PAGE_02.memory_before());
    bring_run(state, image, registers::PAGE_02.memory_behind());
}

// Empties a register.
fn wipe(state: &mut State, r: Register)
    ensures { state.new ≡ patch (held_at r) (length_of r) (λ j. 0) state.old }
{
    let run = r.places();
    moves::fill(state, usize::from(run.first), run.many, 0);
}

// Flags, monitors, masks, blanks and the selected page, as the memory has them.
const EMPTIED: [Register; 6] = [
    registers::FLAGS,
    registers::MONITORS,
    registers::LOW_MASKS,
    registers::BLANKS,
    registers::SELECT,
    registers::HIGH_MASKS,
];

// Empties all of them.
fn empty(state: &mut State)
    ensures { state.new ≡ patch 0 memory_size (λ i. if emptied i then 0 else at state.old i) state.old }
{
    for r in EMPTIED {
        wipe(state, r);
    }
}

// The memory after an accepted reset. Bits 2 and 0 of byte 2 are told and put as the definition does it.
fn restore(state: &mut State, image: &Image)
    ensures { state.new ≡ patch 0 memory_size (λ i. fresh image.now i (at state.old i)) state.old }
{
    bring(state, image);
    empty(state);
    let status = usize::from(registers::STATUS.place());
    state[status] = image[status] / 4 % 2 * 4 + 1;
}

// Empties both records.
fn forget(state: &mut State)
    ensures { state.new ≡ patch memory_size (2 * record_size) (λ j. 0) state.old }
{
    let both = address::records();
    moves::fill(state, usize::from(both.first), both.many, 0);
}

// Resets the module to the factory image.
pub fn reset(state: &mut [u8], image: &[u8]) -> Result<Counts, Refusal>
    ensures accepted { IfOk result (λ n. Reported state.old (reset image.now) 0 n.operator n.recorder state.new) }
    ensures refused { IfErr result (λ r. Reported state.old (reset image.now) (number r) 0 0 state.new) }
{
    let state = state.as_mut_array().ok_or(Refusal::StateSize)?;
    let image = check(image)?;
    restore(state, image);
    forget(state);
    Ok(Counts {
        operator: 0,
        recorder: 0,
    })
}
