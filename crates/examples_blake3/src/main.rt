// Runs BLAKE3's published keyed vectors: for each length a line with the length, the answer's number
// and the 32 bytes in hex. tools/vectors makes the expected lines with the official b3sum.
#![tactic(auto)]

use std::fmt;

// The published lengths up to 8,192, and the first that is refused.
const LENGTHS: [u16; 32] = [
    0, 1, 2, 3, 4, 5, 6, 7, 8, 63, 64, 65, 127, 128, 129, 1023, 1024, 1025, 2048, 2049, 3072, 3073,
    4096, 4097, 5120, 5121, 6144, 6145, 7168, 7169, 8192, 8193,
];

// The published input: byte i is i % 251.
fn input() -> [u8; 8193] {
    let mut m = [0u8; 8193];
    for (i, b) in m.iter_mut().enumerate() {
        *b = (i % 251) as u8;
    }
    m
}

// In hex, two digits a byte: a line is put together before it is written, since each `print!` writes by itself.
#[derive(Clone, Copy)]
struct Hex([u8; 32]);

impl fmt::Display for Hex {
    fn fmt<W: fmt::Write>(&self, f: &mut fmt::Formatter<W>) -> fmt::Result {
        for b in self.0 {
            write!(f, "{b:02x}")?;
        }
        Ok(())
    }
}

fn print_vector(rt: &impl Print, message: &[u8]) {
    let r = keyed_hash::keyed_hash(b"whats the Elvish word for friend", message);
    let _ = println!(rt; "{} {} {}", message.len(), r.answer, Hex(r.bytes));
}

fn main(rt: HostRuntime) {
    let m = input();
    for n in LENGTHS {
        let n = usize::from(n).min(m.len());
        print_vector(&rt, &m[..n]);
    }
}
