// The C face: the calls of `module`, `eight_module`, `readout`, `log_calls` and `log_first` under the names of include/zikhrodan.h,
// over numbers and byte slices. A slice is a pointer and then a length; an answer of several numbers is packed into one.
// Proved: each answer, and each byte left, is that of the definitions, through the calls' own contracts (specs/Face.antt).
#![tactic(auto)]

ghost use Rattle.std.specs.Prelude.{◌≡◌, ◌<◌};
ghost use Rattle.ports.specs.Ports.{reset, sample};
ghost use Rattle.model.specs.Module.{document01};
ghost use Rattle.model.specs.Outcomes.{monitor_told, limits_told};
ghost use Rattle.eight.specs.Module.{eight};
ghost use Rattle.bridge.specs.Packing.{byte_of, refusal_in, value_in, limit_in};
ghost use Rattle.bridge.specs.Face.{ReportPacked, ReadPacked, WritePacked, PlacePacked, KindPacked, AddPacked, OpenPacked, SamplePacked, FirstPacked, value_of_first, upper};

mod packing;

// ---- the calls that are lent the state to change it

#[unsafe(no_mangle)]
pub extern "C" fn zikhrodan_reset(state: &mut [u8], image: &[u8]) -> u32
    ensures { ReportPacked document01 state.old (reset image.now) result state.new }
{
    packing::report(module::reset::reset(state, image))
}

#[unsafe(no_mangle)]
pub extern "C" fn zikhrodan_sample(state: &mut [u8], x: &[u8]) -> u32
    ensures { ReportPacked document01 state.old (sample x.now) result state.new }
{
    packing::report(module::sample::sample(state, x))
}

#[unsafe(no_mangle)]
pub extern "C" fn zikhrodan_read(
    state: &mut [u8],
    port: u64,
    address: u64,
    count: u64,
    out: &mut [u8],
) -> u32
    ensures { ReadPacked document01 state.old port address count out.old result state.new out.new }
{
    packing::answer(module::read::read(state, port, address, count, out))
}

#[unsafe(no_mangle)]
pub extern "C" fn zikhrodan_write(state: &mut [u8], port: u64, address: u64, bytes: &[u8]) -> u32
    ensures { WritePacked document01 state.old port address bytes.now result state.new }
{
    packing::answer(module::write::write(state, port, address, bytes))
}

// ---- the same of the eight-channel module, each under a C name of its own

#[unsafe(no_mangle)]
pub extern "C" fn zikhrodan_dd_reset(state: &mut [u8]) -> u32
    ensures { ReportPacked eight state.old (reset tt) result state.new }
{
    packing::report(eight_module::reset::reset(state))
}

#[unsafe(no_mangle)]
pub extern "C" fn zikhrodan_dd_sample(state: &mut [u8], x: &[u8]) -> u32
    ensures { ReportPacked eight state.old (sample x.now) result state.new }
{
    packing::report(eight_module::sample::sample(state, x))
}

#[unsafe(no_mangle)]
pub extern "C" fn zikhrodan_dd_read(
    state: &mut [u8],
    port: u64,
    address: u64,
    count: u64,
    out: &mut [u8],
) -> u32
    ensures { ReadPacked eight state.old port address count out.old result state.new out.new }
{
    packing::answer(eight_module::read::read(state, port, address, count, out))
}

#[unsafe(no_mangle)]
pub extern "C" fn zikhrodan_dd_write(state: &mut [u8], port: u64, address: u64, bytes: &[u8]) -> u32
    ensures { WritePacked eight state.old port address bytes.now result state.new }
{
    packing::answer(eight_module::write::write(state, port, address, bytes))
}

// ---- identity

#[unsafe(no_mangle)]
pub extern "C" fn zikhrodan_identity(live: &[u8], factory: &[u8], field: u64) -> u32
    ensures { PlacePacked live.now factory.now field result }
{
    packing::place(readout::identity_place(live, factory, field))
}

// ---- monitors

#[unsafe(no_mangle)]
pub extern "C" fn zikhrodan_monitor_kind(state: &[u8], number: u64) -> u32
    ensures { KindPacked state.now number result }
{
    let m = readout::monitor(state, number);
    packing::packed([packing::monitor_refusal(m), packing::kind(m), 0, 0])
}

#[unsafe(no_mangle)]
pub extern "C" fn zikhrodan_monitor_value(state: &[u8], number: u64) -> f64
    ensures { result ≡ value_in (monitor_told state.now number) }
{
    packing::value(readout::monitor(state, number))
}

// ---- limits: C's number of a refusal

#[unsafe(no_mangle)]
pub extern "C" fn zikhrodan_limits_refusal(state: &[u8], quantity: u64) -> u32
    ensures { result ≡ refusal_in (limits_told state.now quantity) }
{
    u32::from(refusal::code(readout::limits(state, quantity)))
}

#[unsafe(no_mangle)]
pub extern "C" fn zikhrodan_limit(state: &[u8], quantity: u64, which: u64) -> f64
    ensures { result ≡ limit_in (limits_told state.now quantity) which }
{
    packing::limit(readout::limits(state, quantity), which)
}

// ---- a log of samples

#[unsafe(no_mangle)]
pub extern "C" fn zikhrodan_log_add(log: &mut [u8], used: u64, sample: &[u8]) -> u64
    ensures { AddPacked log.old used sample.now result log.new }
{
    packing::told(log_calls::add(log, used, sample))
}

#[unsafe(no_mangle)]
pub extern "C" fn zikhrodan_log_power_up(log: &mut [u8], used: u64) -> u64
    ensures { OpenPacked log.old used result log.new }
{
    packing::told(log_calls::power_up(log, used))
}

#[unsafe(no_mangle)]
pub extern "C" fn zikhrodan_log_sample(log: &[u8], used: u64, position: u64) -> u64
    ensures { SamplePacked log.now used position result }
{
    packing::told(log_calls::sample_place(log, used, position))
}

#[unsafe(no_mangle)]
pub extern "C" fn zikhrodan_log_first(log: &[u8], used: u64, bit: u64) -> u64
    ensures { FirstPacked log.now used bit result }
{
    packing::told(log_first::first_with(log, used, bit).map(packing::first))
}
