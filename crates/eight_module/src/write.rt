// The write, on lent memory.
// Proved: for every input, the refusal, the count and the bytes left are those of the definitions.
ghost use Rattle.std.specs.Prelude.{◌≡◌, ◌≤◌, ◌<◌, ◌+◌, ◌-◌, ℕ, List, length, set, if◌then◌else◌, IfOk, IfErr};
ghost use Rattle.std.specs.Int.Bits.{bit_and};
ghost use Rattle.laws.specs.Tests.{within, first_of};
ghost use Rattle.laws.specs.Lists.{at, patch};
ghost use Rattle.ports.specs.Ports.{write, caller};
ghost use Rattle.ports.specs.Modules.{base, write_rows};
ghost use Rattle.ports.specs.Bytes.{record_of, state_of, refusal_of};
ghost use Rattle.ports.specs.Outcomes.{WriteDone};
ghost use Rattle.eight.specs.Tables.{masks, mask_bits, mask_of, record_size};
ghost use Rattle.eight.specs.Module.{written, all_masks, eight};
ghost use Rattle.refusal.specs.Numbers.{number, number_of};
ghost use Rattle.both.specs.Ports.{port_number};

use super::{STATE_LEN, State};
use both::Port;
use refusal::Refusal;

// Whether a write of `n` bytes at `address` touches paired mask bytes alone.
fn are_masks(address: u64, n: usize) -> bool
    requires { address + n ≤ 128 }
    ensures { result ≡ all_masks address n }
{
    let a = address as usize;
    (super::MASKS.first <= a) & (a + n <= super::MASKS.first + super::MASKS.many)
}

// The refusals 4, 5 and 7 of a write of `n` bytes.
fn check_run(port: Port, address: u64, n: usize) -> Result<(), Refusal>
    ensures { (s : List ℕ) → number_of result ≡ first_of (write_rows eight (state_of eight s) (port_number port) address n) }
{
    both::check_write(super::ADDRESSES, address, n)?;
    if (port == Port::Recorder) & !are_masks(address, n) {
        return Err(Refusal::NotItsOwn);
    }
    Ok(())
}

// The port that writes, or why it may not.
fn check(state: &State, port: u64, address: u64, bytes: &[u8]) -> Result<Port, Refusal>
    ensures refusal { number_of result ≡ refusal_of eight state.now (write port address bytes.now) }
    ensures found { IfOk result (λ p. port_number p ≡ port) }
{
    let port = super::check_port(state, port)?;
    check_run(port, address, bytes.len())?;
    Ok(port)
}

// One byte of a write: a mask byte of the record of `port` takes its mask bits, and nothing else does.
fn write_byte(state: &mut State, port: Port, a: usize, v: u8)
    ensures { state.new ≡ (if within masks a then set state.old (base eight (caller (port_number port)) + mask_of (a - masks.first)) (bit_and v (at mask_bits (a - masks.first))) else state.old) }
{
    let masks = super::MASKS.first..super::MASKS.first + super::MASKS.many;
    if masks.contains(&a) {
        let i = a - super::MASKS.first;
        state[super::record_of(port) + (super::MASKS_IN + i)] = v & super::MASK_BITS[i];
    }
}

// The bytes of a write, one after the other. The number of each is how far it is from the first address, and indexes nothing;
// `module`'s is the same loop over another write of one byte.
fn write_bytes(state: &mut State, port: Port, a: usize, bytes: &[u8])
    requires { a + length bytes.now ≤ 128 }
    ensures { let b = base eight (caller (port_number port)) in state.new ≡ patch b record_size (written a bytes.now (record_of eight state.old b)) state.old }
{
    for (k, byte) in bytes.iter().enumerate() {
        write_byte(state, port, a + k, *byte);
    }
}

// An accepted write, and the port's count after it.
fn accept(state: &mut State, port: Port, address: u64, bytes: &[u8]) -> u8
    requires { refusal_of eight state.old (write (port_number port) address bytes.now) ≡ 0 }
    ensures { WriteDone eight state.old (port_number port) address bytes.now 0 result state.new }
{
    write_bytes(state, port, address as usize, bytes);
    super::count_of(state, port)
}

// Writes `bytes` at `address`, as `port` may.
// The state stays a slice and the port a number: C hands them over so (zikhrodan_dd_write).
pub fn write(state: &mut [u8], port: u64, address: u64, bytes: &[u8]) -> Result<u8, Refusal>
    ensures accepted { IfOk result (λ n. WriteDone eight state.old port address bytes.now 0 n state.new) }
    ensures refused { IfErr result (λ r. WriteDone eight state.old port address bytes.now (number r) 0 state.new) }
{
    let state = state.as_mut_array::<STATE_LEN>().ok_or(Refusal::StateSize)?;
    let port = check(state, port, address, bytes)?;
    Ok(accept(state, port, address, bytes))
}
