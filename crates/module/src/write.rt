// The write, on lent memory.
// Proved: for every input, the refusal, the count and the bytes left are those of the model's write.
ghost use Rattle.std.specs.Prelude.{◌≡◌, true, IfOk, IfErr, length};
ghost use Rattle.laws.specs.Tests.{first_of};
ghost use Rattle.model.specs.Ports.{caller, write};
ghost use Rattle.model.specs.Map.{base, seat, sound};
ghost use Rattle.model.specs.Refusals.{is_mine, all_mine, foreign, write_rows};
ghost use Rattle.model.specs.Writing.{store, puts};
ghost use Rattle.model.specs.Bytes.{memory_of, record_of, state_of, bytes_of, refusal_of};
ghost use Rattle.model.specs.Outcomes.{WriteDone};
ghost use Rattle.refusal.specs.Numbers.{number, number_of};
ghost use Rattle.both.specs.Ports.{port_number};

use address::{HostAddress, HostRun, Page, Slot, State};
use both::Port;
use refusal::Refusal;

// ---- refusals

// Whether an address is the port's own byte, with `page` selected.
fn is_mine(page: Page, a: HostAddress) -> bool
    ensures { result ≡ is_mine (seat page.number a.0) }
{
    matches!(address::translate(a, page), Slot::Mine(_))
}

// Whether all of a run are: over their numbers, which index nothing.
fn are_mine(page: Page, run: HostRun) -> bool
    ensures { result ≡ all_mine page.number run.first.0 run.many }
{
    (0..run.many).all(|k| is_mine(page, run.nth(k)))
}

// Whether a recorder's write touches a byte not its own; here and below its record is sound, which no type holds (record/src/lib.rt).
fn is_foreign(state: &State, port: Port, run: HostRun) -> bool
    requires { sound (memory_of state.now) (record_of state.now (base (caller (port_number port)))) ≡ true }
    ensures { result ≡ foreign (state_of state.now) (port_number port) run.first.0 run.many }
{
    port == Port::Recorder
        && !are_mine(
            record::selected(state, address::record_of(u64::from(port))),
            run,
        )
}

// The refusals 4, 5 and 7 of a write of `n` bytes.
fn check_run(state: &State, port: Port, address: u64, n: usize) -> Result<(), Refusal>
    requires { sound (memory_of state.now) (record_of state.now (base (caller (port_number port)))) ≡ true }
    ensures { number_of result ≡ first_of (write_rows (state_of state.now) (port_number port) address n) }
{
    both::check_write(address::HOSTS, address, n)?;
    if is_foreign(state, port, address::run_from(address as u8, n)) {
        return Err(Refusal::NotItsOwn);
    }
    Ok(())
}

// The port that writes, or why it may not.
fn check(state: &State, port: u64, address: u64, bytes: &[u8]) -> Result<Port, Refusal>
    ensures refusal { number_of result ≡ refusal_of state.now (write port address bytes.now) }
    ensures found { IfOk result (λ p. port_number p ≡ port) }
{
    let port = record::caller(state, port)?;
    check_run(state, port, address, bytes.len())?;
    Ok(port)
}

// ---- the bytes

// One byte of a write by a port with `page` selected.
fn write_byte(state: &mut State, port: Port, page: Page, a: HostAddress, v: u8)
    ensures { state.new ≡ bytes_of (store (state_of state.old) (caller (port_number port)) v (seat page.number a.0)) }
{
    let port = u64::from(port);
    match address::translate(a, page) {
        Slot::Mine(k) => {
            record::enter(
                state,
                address::in_record(address::record_of(port), k),
                address::own_class(k),
                v,
            );
        }
        Slot::Common(p) => {
            record::enter(state, p, address::common_class(port, p), v);
        }
        Slot::Flag(_) | Slot::Status | Slot::Blank => {}
    }
}

// The bytes of a write, one after the other; `page` is the page selected before the call. The number of each is how far it is from the first
// address, and indexes nothing; `eight_module`'s is the same loop over another write of one byte.
fn write_bytes(state: &mut State, port: Port, page: Page, run: HostRun, bytes: &[u8])
    requires { length bytes.now ≡ run.many }
    ensures { state.new ≡ bytes_of (puts (state_of state.old) (caller (port_number port)) page.number run.first.0 bytes.now) }
{
    for (k, byte) in bytes.iter().enumerate() {
        write_byte(state, port, page, run.nth(k), *byte);
    }
}

// An accepted write, whose address and length are a run now that they are known to be one, and the port's count after it.
fn accept(state: &mut State, port: Port, address: u64, bytes: &[u8]) -> u8
    requires { refusal_of state.old (write (port_number port) address bytes.now) ≡ 0 }
    ensures { WriteDone state.old (port_number port) address bytes.now 0 result state.new }
{
    let run = address::run_from(address as u8, bytes.len());
    let base = address::record_of(u64::from(port));
    let page = record::selected(state, base);
    write_bytes(state, port, page, run, bytes);
    record::count_of(state, base)
}

// Writes `bytes` at `address`, as `port` may, and answers its count.
pub fn write(state: &mut [u8], port: u64, address: u64, bytes: &[u8]) -> Result<u8, Refusal>
    ensures accepted { IfOk result (λ n. WriteDone state.old port address bytes.now 0 n state.new) }
    ensures refused { IfErr result (λ r. WriteDone state.old port address bytes.now (number r) 0 state.new) }
{
    let state = state.as_mut_array().ok_or(Refusal::StateSize)?;
    let port = check(state, port, address, bytes)?;
    Ok(accept(state, port, address, bytes))
}
