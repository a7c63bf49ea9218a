// What is printed. Each function ends at the first write that fails, with its error.
use both::Counts;
use refusal::{Refusal, code};
use std::{fmt, io};

// Bytes in hex, each after a blank.
#[derive(Clone, Copy)]
pub struct Hex<'a>(pub &'a [u8]);

impl fmt::Display for Hex<'_> {
    fn fmt<W: fmt::Write>(&self, f: &mut fmt::Formatter<W>) -> fmt::Result {
        for byte in self.0 {
            write!(f, " {byte:02x}")?;
        }
        Ok(())
    }
}

// What a reset or a sample answers.
pub fn counts(rt: &impl Print, name: &str, answer: Result<Counts, Refusal>) -> io::Result<()> {
    let Counts { operator, recorder } = answer.unwrap_or_default();
    println!(rt;
        "{name}: refusal {}, counts {operator} {recorder}",
        code(answer)
    )
}

// What a read answers, with what it put into `out`, or a write, with nothing.
pub fn count(
    rt: &impl Print,
    name: &str,
    answer: Result<u8, Refusal>,
    out: &[u8],
) -> io::Result<()> {
    println!(rt;
        "{name}: refusal {}, count {}{}",
        code(answer),
        answer.unwrap_or(0),
        Hex(out)
    )
}

// The bit pattern of an f64, if it is no NaN.
pub fn pattern(rt: &impl Print, name: &str, x: f64) -> io::Result<()> {
    if x.is_nan() {
        return println!(rt; "{name} ");
    }
    println!(rt; "{name} {:016x}", x.to_bits())
}
