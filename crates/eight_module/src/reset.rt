// The reset, on lent memory.
// Proved: for every state, the refusal and the bytes left are those of the definitions.
ghost use Rattle.std.specs.Prelude.{◌≡◌, IfOk, IfErr};
ghost use Rattle.ports.specs.Ports.{reset};
ghost use Rattle.ports.specs.Outcomes.{Reported};
ghost use Rattle.eight.specs.Module.{eight};
ghost use Rattle.refusal.specs.Numbers.{number};

use super::STATE_LEN;
use both::Counts;
use refusal::Refusal;

// Resets the module: nothing is raised, masked or pending, and no condition stood before.
// The state stays a slice: C hands it over so (zikhrodan_dd_reset).
pub fn reset(state: &mut [u8]) -> Result<Counts, Refusal>
    ensures accepted { IfOk result (λ n. Reported eight state.old (reset tt) 0 n.operator n.recorder state.new) }
    ensures refused { IfErr result (λ r. Reported eight state.old (reset tt) (number r) 0 0 state.new) }
{
    let state = state.as_mut_array::<STATE_LEN>().ok_or(Refusal::StateSize)?;
    state.fill(0);
    Ok(Counts {
        operator: 0,
        recorder: 0,
    })
}
