// House records: little-endian numbers, records with their kind, strings behind their lengths. A reader
// takes a slice of any length and a place in it; there is one defect, that it is not there as it should be.
#![tactic(auto)]

ghost use Rattle.std.specs.Prelude.{◌≡◌, ◌≤◌, length};
ghost use Rattle.records.specs.Records.{little_of};
ghost use Rattle.records.specs.Reading.{run_at, little_at, text_at, read_record};

use basis::Span;
use cbor_strings::Class;

// A record's kind, and where its body lies.
#[derive(Clone, Copy)]
pub struct RecordAt {
    pub kind: u64,
    pub body: Span,
}

#[tactic(auto, unfolding(crate::specs::Records::little_of))]
fn little(s: &[u8]) -> u64
    requires { length s.now ≤ 8 }
    ensures { result ≡ little_of s.now }
{
    let mut n: u64 = 0;
    for &b in s.iter().rev() {
        n = n * 256 + u64::from(b);
    }
    n
}

// n bytes from a place on.
#[tactic(auto, unfolding(crate::specs::Reading::run_at))]
pub fn run_at(s: &[u8], at: usize, n: u64) -> Option<Span>
    ensures { result ≡ run_at s.now at n }
{
    if s.len() < at || s.len() - at < n as usize {
        return None;
    }
    Some(Span {
        from: at,
        to: at + n as usize,
    })
}

// A number of so many bytes, at most eight, and where it ends.
#[tactic(auto, using(crate::proofs::Runs::slices), unfolding(crate::specs::Reading::little_at))]
pub fn little_at(s: &[u8], at: usize, width: u8) -> Option<(u64, usize)>
    ensures { result ≡ little_at s.now at width }
{
    if 8 < width {
        return None;
    }
    // sliced: `basis::lend` was tried here, and verify has 5 in 100 instructions more
    let Span { from, to } = run_at(s, at, u64::from(width))?;
    Some((little(&s[from..to]), to))
}

// A string of low to high bytes of a class, behind its length in so many bytes.
#[tactic(auto, unfolding(crate::specs::Reading::text_at))]
pub fn text_at(s: &[u8], at: usize, width: u8, class: Class, low: u64, high: u64) -> Option<Span>
    ensures { result ≡ text_at s.now width class low high at }
{
    let (n, next) = little_at(s, at, width)?;
    if n < low || high < n {
        return None;
    }
    let span = run_at(s, next, n)?;
    let Span { from, to } = span;
    if cbor_strings::content_is(&s[from..to], class) {
        return Some(span);
    }
    None
}

// A record: the length of its body, its kind, its body.
#[tactic(auto, unfolding(crate::specs::Reading::read_record))]
pub fn record_at(s: &[u8], at: usize) -> Option<RecordAt>
    ensures { result ≡ read_record s.now at }
{
    let (n, p) = little_at(s, at, 2)?;
    let (kind, q) = little_at(s, p, 2)?;
    let body = run_at(s, q, n)?;
    Some(RecordAt { kind, body })
}
