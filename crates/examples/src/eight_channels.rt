// Document 02's Ask 6, the eight-channel module: the conditions of byte 9 come, last, and come again; the operator reads, the recorder
// has not read. Its calls are other functions than those of steps.rt, so each has its three lines here.
use crate::print;
use std::io;

// A sample with these conditions for byte 9, and no others.
fn sample(rt: &impl Print, state: &mut [u8], name: &str, nine: u8) -> io::Result<()> {
    let mut x = [0u8; 14];
    x[6] = nine;
    print::counts(rt, name, eight_module::sample::sample(state, &x))
}

// A read of one byte.
fn read(rt: &impl Print, state: &mut [u8], name: &str, port: u64, address: u64) -> io::Result<()> {
    let mut out = [0u8; 1];
    let answer = eight_module::read::read(state, port, address, 1, &mut out);
    print::count(rt, name, answer, &out)
}

fn write(rt: &impl Print, state: &mut [u8], name: &str, port: u64, address: u64) -> io::Result<()> {
    let answer = eight_module::write::write(state, port, address, b"\xFF");
    print::count(rt, name, answer, b"")
}

pub fn story(rt: &impl Print) -> io::Result<()> {
    let mut state = [0xAAu8; 98];
    print::counts(
        rt,
        "eight channels, a reset",
        eight_module::reset::reset(&mut state),
    )?;
    sample(rt, &mut state, "byte 9 is FF", 0xFF)?;
    write(rt, &mut state, "the operator masks all of it", 1, 108)?;
    read(rt, &mut state, "and reads 108", 1, 108)?;
    read(rt, &mut state, "and 9", 1, 9)?;
    sample(rt, &mut state, "byte 9 is FF still", 0xFF)?;
    read(rt, &mut state, "the operator reads 9", 1, 9)?;
    sample(rt, &mut state, "byte 9 is 00", 0)?;
    sample(rt, &mut state, "byte 9 is 01, State Changed", 1)?;
    write(rt, &mut state, "the recorder writes 116", 2, 116)?;
    read(rt, &mut state, "the recorder reads 9", 2, 9)
}
