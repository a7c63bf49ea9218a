// M1 to M12.
use crate::print;
use crate::sample::IN_LIGHT;
use readout::Monitored;
use std::io;

// Each example's name, and its sample's temperature, supply, Rx1 and Rx2.
const EXAMPLES: [(&str, u16, u16, u16, u16); 12] = [
    ("M1, Rx1 = 251", 0x1900, 0x80E8, 251, 501),
    ("M2, Rx1 = 250", 0x1900, 0x80E8, 250, 501),
    ("M3, Rx1 = 35481", 0x1900, 0x80E8, 35481, 501),
    ("M4, Rx1 = 35482", 0x1900, 0x80E8, 35482, 501),
    ("M5, Rx2 = 500", 0x1900, 0x80E8, 501, 500),
    ("M6, all 501", 0x1900, 0x80E8, 501, 501),
    ("M7, FF00h", 0xFF00, 0x80E8, 501, 501),
    ("M7, 8000h", 0x8000, 0x80E8, 501, 501),
    ("M7, 7FFFh", 0x7FFF, 0x80E8, 501, 501),
    ("M8, FFFFh", 0xFFFF, 0x80E8, 501, 501),
    ("M9, supply 7A75h", 0x1900, 0x7A75, 501, 501),
    ("M9, supply 7A76h", 0x1900, 0x7A76, 501, 501),
];

// The first sample of a module that was just reset, and the operator's read of all flags.
fn sampled(rt: &impl Print, image: &[u8], name: &str, x: &[u8]) -> io::Result<()> {
    let mut state = [0u8; 688];
    let mut flags = [0u8; 12];
    let _ = module::reset::reset(&mut state, image);
    print::counts(rt, name, module::sample::sample(&mut state, x))?;
    let read = module::read::read(&mut state, 1, 3, 12, &mut flags);
    print::count(rt, "  read 1 3 12", read, &flags)?;
    degrees(rt, &state)
}

fn degrees(rt: &impl Print, state: &[u8]) -> io::Result<()> {
    match readout::monitor(state, 0) {
        Monitored::Degrees(x) => print::pattern(rt, "  degrees", x),
        Monitored::Volts(_)
        | Monitored::Milliwatts(_)
        | Monitored::Milliamperes(_)
        | Monitored::Nothing
        | Monitored::Refused(_) => println!(rt; "  no degrees"),
    }
}

pub fn flags(rt: &impl Print, image: &[u8]) -> io::Result<()> {
    for (name, temperature, supply, rx1, rx2) in EXAMPLES {
        let mut x = IN_LIGHT;
        x[3..5].copy_from_slice(&temperature.to_be_bytes());
        x[5..7].copy_from_slice(&supply.to_be_bytes());
        x[7..9].copy_from_slice(&rx1.to_be_bytes());
        x[9..11].copy_from_slice(&rx2.to_be_bytes());
        sampled(rt, image, name, &x)?;
    }
    Ok(())
}
