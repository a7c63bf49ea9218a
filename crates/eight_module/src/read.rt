// The read, on lent memory.
// Proved: for every input, the refusal, the count, the bytes left and the output are those of the definitions.
ghost use Rattle.std.specs.Prelude.{◌≡◌, ◌≤◌, ◌+◌, length, IfOk, IfErr};
ghost use Rattle.laws.specs.Lists.{patch};
ghost use Rattle.ports.specs.Ports.{read, caller};
ghost use Rattle.ports.specs.Modules.{base};
ghost use Rattle.ports.specs.Bytes.{record_of, refusal_of};
ghost use Rattle.ports.specs.Outcomes.{ReadDone};
ghost use Rattle.eight.specs.Tables.{record_size};
ghost use Rattle.eight.specs.Module.{seen, cleared, eight};
ghost use Rattle.refusal.specs.Numbers.{number, number_of};
ghost use Rattle.both.specs.Ports.{port_number};

use super::{STATE_LEN, State};
use both::Port;
use moves::Run;
use refusal::Refusal;

// The port that reads, or why it may not.
fn check(state: &State, port: u64, address: u64, count: u64, out: &[u8]) -> Result<Port, Refusal>
    ensures refusal { number_of result ≡ refusal_of eight state.now (read port address count out.now) }
    ensures found { IfOk result (λ p. port_number p ≡ port) }
{
    let port = super::check_port(state, port)?;
    both::check_read(super::ADDRESSES, address, count, out.len())?;
    Ok(port)
}

// What `port` sees at the addresses of `run`, at the front of `out`, which has room for them: they come apart, as in `module`'s read.
fn look(out: &mut [u8], run: Run, state: &State, port: Port)
    requires { run.many ≤ length out.old }
    ensures { out.new ≡ patch 0 run.many (λ j. seen (record_of eight state.now (base eight (caller (port_number port)))) (run.first + j)) out.old }
{
    let base = super::record_of(port);
    moves::fill(out, 0, run.many, 0);
    moves::copy_part(out, run, state, base + super::MASKS_IN, super::MASKS);
    moves::copy_part(out, run, state, base + super::FLAGS_IN, super::FLAGS);
}

// Clears the flags and the pending bits of these addresses in the record of `port`, and in no other.
fn clear(state: &mut State, port: Port, run: Run)
    ensures { let b = base eight (caller (port_number port)) in state.new ≡ patch b record_size (cleared run.first run.many (record_of eight state.old b)) state.old }
{
    let base = super::record_of(port);
    moves::fill_part(state, base + super::FLAGS_IN, super::FLAGS, run, 0);
    moves::fill_part(state, base + super::PENDING_IN, super::FLAGS, run, 0);
}

// An accepted read: the bytes out, then flags and pending bits cleared for this port alone, then its count.
fn accept(state: &mut State, port: Port, address: u64, count: u64, out: &mut [u8]) -> u8
    requires { refusal_of eight state.old (read (port_number port) address count out.old) ≡ 0 }
    ensures { ReadDone eight state.old (port_number port) address count out.old 0 result state.new out.new }
{
    let run = Run {
        first: address as usize,
        many: count as usize,
    };
    look(out, run, state, port);
    clear(state, port, run);
    super::count_of(state, port)
}

// Reads `count` bytes at `address` into the front of `out`, as `port` sees them, and clears its flags and pending bits there.
// The state stays a slice and the port a number: C hands them over so (zikhrodan_dd_read).
pub fn read(
    state: &mut [u8],
    port: u64,
    address: u64,
    count: u64,
    out: &mut [u8],
) -> Result<u8, Refusal>
    ensures accepted { IfOk result (λ n. ReadDone eight state.old port address count out.old 0 n state.new out.new) }
    ensures refused { IfErr result (λ r. ReadDone eight state.old port address count out.old (number r) 0 state.new out.new) }
{
    let state = state.as_mut_array::<STATE_LEN>().ok_or(Refusal::StateSize)?;
    let port = check(state, port, address, count, out)?;
    Ok(accept(state, port, address, count, out))
}
