// Heads of deterministic CBOR in their shortest form, and the numbers and counts that they give. A reader takes a
// slice of any length and a place in it; a defect carries its kind and the place of the item at fault.
#![tactic(auto)]

ghost use Rattle.std.specs.Prelude.{◌≡◌, ◌<◌, ◌≤◌, length};
ghost use Rattle.cbor_heads.specs.Reading.{big_of, width_of, read_head};
ghost use Rattle.cbor_heads.specs.Counts.{read_count, count_numbered, map_with, array_up_to, number_up_to};

pub mod defect;
pub mod major;

use defect::{Defect, Kind, NumberedDefect, Reading};

// How many bytes follow a head's first one, and the least number that they may hold.
#[derive(Clone, Copy)]
pub enum Width {
    Here,
    Follow { n: usize, least: u64 },
    Refused,
}

// A head as it is read, and the place behind it.
#[derive(Clone, Copy)]
pub struct Head {
    pub major: u8,
    pub value: u64,
    pub next: usize,
}

#[tactic(auto, unfolding(crate::specs::Reading::width_of))]
pub fn width_of(low: u8) -> Width
    ensures { result ≡ width_of low }
{
    match low {
        0..=23 => Width::Here,
        24 => Width::Follow { n: 1, least: 24 },
        25 => Width::Follow { n: 2, least: 256 },
        26 => Width::Follow { n: 4, least: 65536 },
        27 => Width::Follow {
            n: 8,
            least: 4294967296,
        },
        _ => Width::Refused,
    }
}

// A big-endian number of at most eight bytes.
fn number(s: &[u8]) -> u64
    requires { length s.now ≤ 8 }
    ensures { result ≡ big_of s.now }
{
    let mut v: u64 = 0;
    for &b in s {
        v = v * 256 + u64::from(b);
    }
    v
}

pub fn read_head(s: &[u8], at: usize) -> Reading<Head>
    ensures { result ≡ read_head s.now at }
{
    if s.len() <= at {
        return Err(Defect {
            kind: Kind::Cbor,
            at,
        });
    }
    let major = s[at] / 32;
    let low = s[at] % 32;
    let from = at + 1;
    match width_of(low) {
        Width::Here => Ok(Head {
            major,
            value: u64::from(low),
            next: from,
        }),
        Width::Refused => Err(Defect {
            kind: Kind::Cbor,
            at,
        }),
        Width::Follow { n, least } => {
            if s.len() - from < n {
                return Err(Defect {
                    kind: Kind::Cbor,
                    at,
                });
            }
            let value = number(&s[from..from + n]);
            if value < least {
                return Err(Defect {
                    kind: Kind::Cbor,
                    at,
                });
            }
            Ok(Head {
                major,
                value,
                next: from + n,
            })
        }
    }
}

// A number, or the count of an array or a map, and the place behind its head; `above` is the kind of the defect where it
// is too large.
#[tactic(auto, unfolding(crate::specs::Counts::count_by))]
pub fn read_count(
    s: &[u8],
    at: usize,
    major: u8,
    least: u64,
    most: u64,
    above: Kind,
) -> Reading<(u64, usize)>
    ensures { result ≡ read_count s.now at major least most above }
{
    let Head {
        major: m,
        value: n,
        next,
    } = read_head(s, at)?;
    if m != major {
        return Err(Defect {
            kind: Kind::Cbor,
            at,
        });
    }
    if n < least {
        return Err(Defect {
            kind: Kind::Cbor,
            at,
        });
    }
    if most < n {
        return Err(Defect { kind: above, at });
    }
    Ok((n, next))
}

// The same for a caller with numbers of its own: `above` is any number, which is handed back where the count is too
// large.
pub fn count_numbered(
    s: &[u8],
    at: usize,
    major: u8,
    least: u64,
    most: u64,
    above: u32,
) -> Result<(u64, usize), NumberedDefect>
    ensures { result ≡ count_numbered s.now at major least most above }
{
    match read_count(s, at, major, least, most, Kind::Bounds) {
        Ok(found) => Ok(found),
        Err(defect) => Err(defect::numbered(defect, above)),
    }
}

// The count of a map that requires so many keys and knows so many.
pub fn map_with(s: &[u8], at: usize, required: u64, known: u64) -> Reading<(u64, usize)>
    ensures { result ≡ map_with required known s.now at }
{
    read_count(s, at, major::MAP, required, known, Kind::Unknown)
}

pub fn array_up_to(s: &[u8], at: usize, most: u64) -> Reading<(u64, usize)>
    ensures { result ≡ array_up_to most s.now at }
{
    read_count(s, at, major::ARRAY, 0, most, Kind::Bounds)
}

pub fn number_up_to(s: &[u8], at: usize, most: u64) -> Reading<(u64, usize)>
    ensures { result ≡ number_up_to most s.now at }
{
    read_count(s, at, major::UNSIGNED, 0, most, Kind::Bounds)
}
