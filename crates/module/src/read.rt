// The read, on lent memory.
// Proved: for every input, the refusal, the count, the bytes left and the output are those of the model's read. What lies in the memory
// is copied as a run, and what is the port's own is put over it.
ghost use Rattle.std.specs.Prelude.{◌≡◌, ◌&&◌, ◌≤◌, ◌+◌, true, eqb, length, IfOk, IfErr, if◌then◌else◌};
ghost use Rattle.laws.specs.Tests.{◌to◌, within};
ghost use Rattle.laws.specs.Lists.{at, patch};
ghost use Rattle.model.specs.Ports.{read};
ghost use Rattle.model.specs.Map.{sound, high_masks, high_mask_of, status_at};
ghost use Rattle.model.specs.Reading.{status_byte, seen};
ghost use Rattle.model.specs.Bytes.{memory_of, record_of, refusal_of};
ghost use Rattle.model.specs.Outcomes.{ReadDone};
ghost use Rattle.refusal.specs.Numbers.{number, number_of};
ghost use Rattle.both.specs.Ports.{port_number};
ghost use Rattle.address.specs.Meaning.{stored_at};
ghost use Rattle.module.specs.Own.{own_seen};

use address::{Base, HostRun, Own, Page, State, registers};
use both::Port;
use moves::Part;
use refusal::Refusal;

// The port that reads, or why it may not.
fn check(state: &State, port: u64, address: u64, count: u64, out: &[u8]) -> Result<Port, Refusal>
    ensures refusal { number_of result ≡ refusal_of state.now (read port address count out.now) }
    ensures found { IfOk result (λ p. port_number p ≡ port) }
{
    let port = record::caller(state, port)?;
    both::check_read(address::HOSTS, address, count, out.len())?;
    Ok(port)
}

// ---- what is shown: the bytes of a run of addresses, at the front of `out`
// `out` and the run come apart, each time with what `out` has room for: a struct of both would have each function say, for that one fact
// less, that the run stayed and that `out` is still the same memory.

// The bytes of the memory, with `page` selected.
fn put_memory(out: &mut [u8], run: HostRun, state: &State, page: Page)
    requires { run.many ≤ length out.old }
    ensures { out.new ≡ patch 0 run.many (λ j. at state.now (stored_at page.number (run.first.0 + j))) out.old }
{
    address::put_lane(out, run, state, address::lower_lane());
    address::put_lane(out, run, state, address::page_lane(page));
}

// Over them, on page 03h, the masks 242 to 247 of the record at `base`.
fn put_high_masks(out: &mut [u8], run: HostRun, state: &State, base: Base, page: Page)
    requires { run.many ≤ length out.old }
    ensures { out.new ≡ patch 0 run.many (λ j. if eqb page.number 3 && within high_masks (run.first.0 + j) then record_of state.now base.place.0 (high_mask_of (run.first.0 + j)) else at out.old j) out.old }
{
    if registers::HIGH_MASKS.is_on(page.number) {
        address::put_lane(out, run, state, address::own_lane(Own::HIGH_MASKS, base));
    }
}

// Over them byte 2.
fn put_status(out: &mut [u8], run: HostRun, state: &State, base: Base)
    requires { run.many ≤ length out.old }
    ensures { out.new ≡ patch 0 run.many (λ j. if eqb (run.first.0 + j) status_at then status_byte (memory_of state.now) (record_of state.now base.place.0) else at out.old j) out.old }
{
    // the flags are counted only where byte 2 is shown
    let Part { skip, many } = run.part(registers::STATUS.hosts());
    if many != 0 {
        out[skip] = record::status(state, base);
    }
}

// Over them 119 to 126, which read 0.
fn put_blanks(out: &mut [u8], run: HostRun)
    requires { run.many ≤ length out.old }
    ensures { out.new ≡ patch 0 run.many (λ j. if within (119 to 126) (run.first.0 + j) then 0 else at out.old j) out.old }
{
    let blanks = registers::BLANKS.hosts();
    moves::fill_part(out, 0, run.numbers(), blanks.numbers(), 0);
}

// Over them 3 to 14, 100 to 104, 119 to 126 and 127.
fn put_own(out: &mut [u8], run: HostRun, state: &State, base: Base)
    requires { run.many ≤ length out.old }
    ensures { out.new ≡ patch 0 run.many (λ j. own_seen (record_of state.now base.place.0) (run.first.0 + j) (at out.old j)) out.old }
{
    put_blanks(out, run);
    address::put_lane(out, run, state, address::own_lane(Own::SELECT, base));
    address::put_lane(out, run, state, address::own_lane(Own::LOW_MASKS, base));
    address::put_lane(out, run, state, address::own_lane(Own::FLAGS, base));
}

// What the port with the record at `base` sees at a run of addresses. The record is sound, which no type holds (record/src/lib.rt).
fn look(out: &mut [u8], run: HostRun, state: &State, base: Base)
    requires room { run.many ≤ length out.old }
    requires record_sound { sound (memory_of state.now) (record_of state.now base.place.0) ≡ true }
    ensures { out.new ≡ patch 0 run.many (λ j. seen (memory_of state.now) (record_of state.now base.place.0) (run.first.0 + j)) out.old }
{
    let page = record::selected(state, base);
    put_memory(out, run, state, page);
    put_high_masks(out, run, state, base, page);
    put_status(out, run, state, base);
    put_own(out, run, state, base);
}

// ---- the call

// An accepted read, whose address and count are a run now that they are known to be one: the bytes out, then the flags of the run cleared for this port alone, then its count.
fn accept(state: &mut State, port: Port, address: u64, count: u64, out: &mut [u8]) -> u8
    requires { refusal_of state.old (read (port_number port) address count out.old) ≡ 0 }
    ensures { ReadDone state.old (port_number port) address count out.old 0 result state.new out.new }
{
    let run = address::run_from(address as u8, count as usize);
    let base = address::record_of(u64::from(port));
    look(out, run, state, base);
    record::clear(state, base, run);
    record::count_of(state, base)
}

// Reads `count` bytes at `address` into the front of `out`, as `port` sees them, clears its flags there and answers its count.
pub fn read(
    state: &mut [u8],
    port: u64,
    address: u64,
    count: u64,
    out: &mut [u8],
) -> Result<u8, Refusal>
    ensures accepted { IfOk result (λ n. ReadDone state.old port address count out.old 0 n state.new out.new) }
    ensures refused { IfErr result (λ r. ReadDone state.old port address count out.old (number r) 0 state.new out.new) }
{
    let state = state.as_mut_array().ok_or(Refusal::StateSize)?;
    let port = check(state, port, address, count, out)?;
    Ok(accept(state, port, address, count, out))
}
