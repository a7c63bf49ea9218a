// The identity of the image, by its three calls.
use crate::print::Hex;
use readout::Found;
use refusal::code;
use std::io;

const FIELDS: [(&str, u64); 7] = [
    ("vendor name", 1),
    ("vendor OUI", 2),
    ("part number", 3),
    ("revision", 4),
    ("serial number", 5),
    ("date code", 6),
    ("field 7", 7),
];

pub fn fields(rt: &impl Print, page: &[u8]) -> io::Result<()> {
    for (name, number) in FIELDS {
        let place = readout::identity_place(page, page, number);
        let refusal = code(readout::identity_refusal(page, page, number));
        let view = Hex(readout::identity_view(page, page, number));
        print!(rt;
            "{name}: refusal {} {refusal}, page, start and length",
            code(place)
        )?;
        match place {
            Ok(
                Found {
                    page,
                    start,
                    length,
                },
            ) => println!(rt; " {} {start} {length}:{view}", u8::from(page))?,
            Err(_) => println!(rt; " 0 0 0:{view}")?,
        }
    }
    Ok(())
}
