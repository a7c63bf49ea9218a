// Reads and writes of one module after another: M10 to M12, and the start-up sequence of document 004.
use crate::print;
use crate::sample::IN_LIGHT;
use std::io;

// A read of one to four bytes; all four of the output memory are printed. Ports are the numbers that a caller says, here and in the other files.
fn read(
    rt: &impl Print,
    state: &mut [u8],
    name: &str,
    port: u64,
    address: u64,
    count: u64,
) -> io::Result<()> {
    let mut out = [0u8; 4];
    let answer = module::read::read(state, port, address, count, &mut out);
    print::count(rt, name, answer, &out)
}

fn write(
    rt: &impl Print,
    state: &mut [u8],
    name: &str,
    port: u64,
    address: u64,
    bytes: &[u8],
) -> io::Result<()> {
    let answer = module::write::write(state, port, address, bytes);
    print::count(rt, name, answer, b"")
}

fn sample(rt: &impl Print, state: &mut [u8], name: &str, status: u8) -> io::Result<()> {
    let mut x = IN_LIGHT;
    x[2] = status;
    print::counts(rt, name, module::sample::sample(state, &x))
}

// ---- M10 to M12

// What is written: by whom, where, and the bytes.
const WRITES: [(&str, u64, u64, &[u8]); 5] = [
    ("M11, the operator writes 1 at 127", 1, 127, b"\x00"),
    ("M11, the recorder writes 1 at 127", 2, 127, b"\x00"),
    ("M11, the operator writes 2 at 127", 1, 127, b"\x00\x00"),
    ("M11, the recorder writes 2 at 127", 2, 127, b"\x00\x00"),
    ("M12, the recorder writes 86", 2, 86, b"\x0F"),
];

pub fn edges(rt: &impl Print, image: &[u8]) -> io::Result<()> {
    let mut state = [0u8; 688];
    let _ = module::reset::reset(&mut state, image);
    read(rt, &mut state, "M10, read at 255 of 1", 1, 255, 1)?;
    read(rt, &mut state, "M10, read at 255 of 2", 1, 255, 2)?;
    for (name, port, address, bytes) in WRITES {
        write(rt, &mut state, name, port, address, bytes)?;
    }
    Ok(())
}

// ---- document 004's steps 6 to 10

// The module's identity is read while Tx is disabled.
fn look(rt: &impl Print, state: &mut [u8]) -> io::Result<()> {
    write(rt, state, "6. Tx disable", 1, 86, b"\x0F")?;
    read(rt, state, "7. the identity", 1, 148, 4)?;
    write(rt, state, "7. page 03h", 1, 127, b"\x03")?;
    read(rt, state, "7. what the equaliser can do", 1, 224, 1)
}

// The equaliser is set, and Tx enabled.
fn equalise(rt: &impl Print, state: &mut [u8]) -> io::Result<()> {
    write(rt, state, "7. 10 dB on all lines", 1, 234, b"\xAA\xAA")?;
    read(rt, state, "7. and so it stands", 1, 234, 2)?;
    write(rt, state, "7. page 00h", 1, 127, b"\x00")?;
    write(rt, state, "8. Tx enable", 1, 86, b"\x00")
}

// Byte 2 clears no flag.
fn watch(rt: &impl Print, state: &mut [u8]) -> io::Result<()> {
    sample(rt, state, "9. lock is lost on Rx1", 1)?;
    sample(rt, state, "9. and found", 0)?;
    read(rt, state, "10. byte 2", 1, 2, 1)?;
    read(rt, state, "10. and again", 1, 2, 1)
}

// A read of bytes 3 to 5 does, for the operator alone.
fn clear(rt: &impl Print, state: &mut [u8]) -> io::Result<()> {
    read(rt, state, "10. the flags", 1, 3, 3)?;
    read(rt, state, "10. byte 2", 1, 2, 1)?;
    read(rt, state, "10. the recorder's", 2, 2, 1)
}

pub fn start_up(rt: &impl Print, image: &[u8]) -> io::Result<()> {
    let mut state = [0u8; 688];
    print::counts(rt, "start-up", module::reset::reset(&mut state, image))?;
    look(rt, &mut state)?;
    equalise(rt, &mut state)?;
    watch(rt, &mut state)?;
    clear(rt, &mut state)
}
