// Document 01's examples M1 to M12, document 004's start-up sequence, the identity of document 000, the log of document 02's Ask 1 and
// Ask 9, and the eight-channel module of its Ask 6, made by Rattle code through the calls that it would use. The factory image's 640
// bytes come on standard input; what is to be printed stands in `stdout`. The long tables of calls are tests/vectors'.
//
// Proved: it is safe and ends. What the calls answer is their own contracts'.
#![tactic(auto)]

mod eight_channels;
mod identity;
mod log;
mod print;
mod sample;
mod steps;
mod table;

use std::io::{self, Read};

fn main(rt: HostRuntime) -> io::Result<()> {
    let mut image = [0u8; 640];
    if rt.stdin().read_exact(&mut image).is_err() {
        return println!(&rt; "standard input is no image of 640 bytes");
    }
    table::flags(&rt, &image)?;
    steps::edges(&rt, &image)?;
    steps::start_up(&rt, &image)?;
    identity::fields(&rt, &image[128..256])?;
    log::story(&rt)?;
    eight_channels::story(&rt)
}
