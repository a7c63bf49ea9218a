// Document 02's Ask 1 and Ask 9: a log of two blocks.
use crate::print::Hex;
use refusal::{Refusal, code};
use std::io;

fn kept(rt: &impl Print, name: &str, answer: Result<u64, Refusal>) -> io::Result<()> {
    println!(rt;
        "{name}: refusal {}, used {}",
        code(answer),
        answer.unwrap_or(0)
    )
}

// The front and the end of a block.
fn shown(rt: &impl Print, block: &[u8; 512]) -> io::Result<()> {
    println!(rt;
        "  bytes 0 to 7:{}, 501 to 511:{}",
        Hex(&block[..8]),
        Hex(&block[501..])
    )
}

// Adds a sample of nothing but `status` in its first byte.
fn add(rt: &impl Print, log: &mut [u8], used: u64, name: &str, status: u8) -> io::Result<()> {
    let mut x = [0u8; 31];
    x[0] = status;
    kept(rt, name, log_calls::add(log, used, &x))
}

fn at(rt: &impl Print, log: &[u8], used: u64, position: u64) -> io::Result<()> {
    let place = log_calls::sample_place(log, used, position);
    let view = log_calls::sample_view(log, used, position);
    println!(rt;
        "the sample at {position}: refusal {}, place {}:{}",
        code(place),
        place.unwrap_or(0),
        Hex(view)
    )
}

fn first(rt: &impl Print, log: &[u8], used: u64, bit: u64) -> io::Result<()> {
    match log_first::first_with(log, used, bit) {
        Ok(Some(position)) => println!(rt; "the first with bit {bit}: {position}"),
        Ok(None) => println!(rt; "the first with bit {bit}: none"),
        Err(refusal) => println!(rt; "the first with bit {bit}: refusal {}", u8::from(refusal)),
    }
}

// Ask 1's empty block, as Ask 9 has it: 1 in byte 3, 1 in byte 504, 2 in byte 511. The used numbers are arguments, and index nothing; so are the
// positions below.
fn begin(rt: &impl Print, log: &mut [u8]) -> io::Result<()> {
    for used in 0..3 {
        kept(rt, "power-up", log_calls::power_up(log, used))?;
    }
    Ok(())
}

pub fn story(rt: &impl Print) -> io::Result<()> {
    let mut log = [0xAAu8; 1024];
    begin(rt, &mut log)?;
    shown(rt, log_calls::walk::block_of(&log, 0))?;
    add(rt, &mut log, 2, "a sample", 0)?;
    add(rt, &mut log, 2, "a sample with bit 1", 2)?;
    shown(rt, log_calls::walk::block_of(&log, 1))?;
    for position in 1..3 {
        at(rt, &log, 2, position)?;
    }
    for bit in [1, 0, 24] {
        first(rt, &log, 2, bit)?;
    }
    Ok(())
}
