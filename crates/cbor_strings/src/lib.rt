// Strings of deterministic CBOR, by their range and class of content. A reader takes a slice of any length and a
// place in it; a defect carries its kind and the place of the item at fault.
#![tactic(auto)]

ghost use Rattle.std.specs.Prelude.{◌≡◌, not};
ghost use Rattle.std.specs.List.{list_all};
ghost use Rattle.cbor_strings.specs.Strings.{is_name, is_hex, is_printable, content_of};
ghost use Rattle.cbor_strings.specs.Inner.{is_near, near_in, next_seen, seen_by, may_end};
ghost use Rattle.cbor_strings.specs.declared.Class.TheVariants.{Path};
ghost use Rattle.cbor_strings.specs.declared.Seen.TheVariants.{Nothing};
ghost use Rattle.cbor_strings.specs.Reading.{read_run, read_string};

use basis::Span;
use cbor_heads::defect::{Defect, Kind, Reading};
use cbor_heads::{Head, major};

// What a string may hold.
#[derive(Clone, Copy, PartialEq, Eq)]
pub enum Class {
    Name,
    Printable,
    Path,
    Upper,
    Hex,
}

// What is seen so far of the segment of a path that is open: nothing, ".", ".." or anything else.
#[derive(Clone, Copy, PartialEq, Eq)]
enum Seen {
    Anything,
    Nothing,
    Dot,
    Dots,
}

impl Seen {
    // Whether a path may end there.
    fn may_end(self) -> bool
        ensures { result ≡ may_end self }
    {
        match self {
            Seen::Anything | Seen::Nothing => true,
            Seen::Dot | Seen::Dots => false,
        }
    }
}

// Letters, digits, "-", "." and "_", by nested tests: one `matches!` needs 337 instructions for 192 at 16 bytes.
#[tactic(auto, unfolding(crate::specs::Strings::is_name))]
fn is_name(c: u8) -> bool
    ensures { result ≡ is_name c }
{
    if b'a' <= c {
        c <= b'z'
    } else if b'A' <= c {
        c <= b'Z' || c == b'_'
    } else {
        b'-' <= c && c <= b'9' && c != b'/'
    }
}

#[tactic(auto, unfolding(crate::specs::Strings::is_hex))]
fn is_hex(c: u8) -> bool
    ensures { result ≡ is_hex c }
{
    c.is_ascii_digit() || matches!(c, b'a'..=b'f')
}

// Whether every character is from 0x21 to 0x7e. The loop has one way out, so that the compiler takes many characters
// at a time; a fold of the test with `&` needs 566 instructions for 356 at 1,024 bytes.
#[tactic(auto, using(crate::proofs::Printable::printable_more))]
fn all_printable(s: &[u8]) -> bool
    ensures { result ≡ list_all is_printable s.now }
{
    let mut first = u8::MAX;
    let mut last = 0;
    for &c in s {
        first = first.min(c);
        last = last.max(c);
    }
    0x21 <= first && last <= 0x7e
}

// Whether a byte may be one that a path must not have: below "-", where "%" is, or past "~"; or "." or "/" behind "/".
#[tactic(auto, unfolding(crate::specs::Inner::is_near))]
fn is_near(before: u8, c: u8) -> bool
    ensures { result ≡ is_near before c }
{
    (c < b'-') | (0x7e < c) | ((before == b'/') & ((c == b'.') | (c == b'/')))
}

// Whether nothing behind the first byte is near. The loop has one way out, so that the compiler takes many bytes at
// a time; over `zip` or `windows` it takes sixteen of them one by one: 389 or 409 instructions for 130 at 64 bytes.
#[tactic(auto, using(crate::proofs::PathWalks::far_end, crate::proofs::PathWalks::far_on))]
fn far(s: &[u8]) -> bool
    ensures { result ≡ not (near_in s.now) }
{
    let mut near = false;
    for i in 1..s.len() {
        near |= is_near(s[i - 1], s[i]);
    }
    !near
}

// What is seen of the open segment of a path behind one more byte; `None` where the path is refused. Letters are asked
// for first, since they are most: as an arm of the `match` they need 287 instructions for 188 at 16 bytes.
#[tactic(auto, unfolding(crate::specs::Inner::next_seen, crate::specs::Inner::is_outside, crate::specs::Strings::is_printable))]
fn next_seen(seen: Seen, c: u8) -> Option<Seen>
    ensures { result ≡ next_seen seen c }
{
    if matches!(c, b'0'..=b'~') {
        return Some(Seen::Anything);
    }
    match c {
        b'/' if seen == Seen::Anything => Some(Seen::Nothing),
        b'.' if seen == Seen::Nothing => Some(Seen::Dot),
        b'.' if seen == Seen::Dot => Some(Seen::Dots),
        b'.' | b'!'..=b'$' | b'&'..=b'-' => Some(Seen::Anything),
        _ => None,
    }
}

// What is seen at the end of a path, of which this stands behind the first "/"; `None` where the path is refused.
#[tactic(auto, using(crate::proofs::PathWalks::walk_end, crate::proofs::PathWalks::walk_off, crate::proofs::PathWalks::walk_on))]
fn walk(s: &[u8]) -> Option<Seen>
    ensures { result ≡ seen_by Nothing s.now }
{
    let mut seen = Seen::Nothing;
    for &c in s {
        seen = next_seen(seen, c)?;
    }
    Some(seen)
}

// Whether a path's content is good. One where nothing is near is read many bytes at a time: whole stretches of
// sixteen from the front and, since they may leave some, the last sixteen. Any other, and a short one, is walked.
#[tactic(auto, using(crate::proofs::PathJudged::no_slash, crate::proofs::PathJudged::walk_stands, crate::proofs::PathJudged::far_stands))]
fn path_is(s: &[u8]) -> bool
    ensures { result ≡ content_of Path s.now }
{
    let Some(rest) = s.strip_prefix(b"/") else {
        return false;
    };
    if let Some(end) = s.last_chunk::<17>() {
        let front = (s.len() - 1) / 16 * 16 + 1;
        if far(&s[..front]) && far(end) {
            return true;
        }
    }
    walk(rest).is_some_and(Seen::may_end)
}

// No way out of sixteen, so that the compiler takes them at once: `all` needs 237 instructions for 87.
fn hex_group(group: &[u8; 16]) -> bool
    ensures { result ≡ list_all is_hex group.now }
{
    group.iter().fold(true, |all, &c| all & is_hex(c))
}

fn hex_groups(groups: &[[u8; 16]]) -> bool
    ensures { result ≡ list_all (λ g. list_all is_hex g) groups.now }
{
    groups.iter().all(hex_group)
}

fn hex_each(s: &[u8]) -> bool
    ensures { result ≡ list_all is_hex s.now }
{
    s.iter().all(|&c| is_hex(c))
}

// Sixteen at a time as far as all are digits, so that what stands behind a wrong one costs nothing.
fn all_hex(s: &[u8]) -> bool
    ensures { result ≡ list_all is_hex s.now }
{
    let (groups, rest) = s.as_chunks::<16>();
    hex_groups(groups) && hex_each(rest)
}

// Inlined, since a reader of one class needs one arm alone: as a call, the rows of a key table take a fifth more time.
#[inline(always)]
#[tactic(auto, unfolding(crate::specs::Strings::content_of, crate::specs::Strings::is_upper))]
pub fn content_is(s: &[u8], class: Class) -> bool
    ensures { result ≡ content_of class s.now }
{
    match class {
        Class::Name => s.iter().all(|&c| is_name(c)),
        Class::Printable => all_printable(s),
        Class::Path => path_is(s),
        Class::Upper => s.iter().all(|c| c.is_ascii_uppercase()),
        Class::Hex => all_hex(s),
    }
}

// A string of the major type wanted with low to high bytes, whatever they are.
#[tactic(auto, unfolding(crate::specs::Reading::run_by))]
pub fn read_run(s: &[u8], at: usize, major: u8, low: u64, high: u64) -> Reading<Span>
    ensures { result ≡ read_run s.now at major low high }
{
    let Head {
        major: m,
        value: n,
        next,
    } = cbor_heads::read_head(s, at)?;
    if m != major {
        return Err(Defect {
            kind: Kind::Cbor,
            at,
        });
    }
    if n < low {
        return Err(Defect {
            kind: Kind::Bounds,
            at,
        });
    }
    if high < n {
        return Err(Defect {
            kind: Kind::Bounds,
            at,
        });
    }
    if s.len() - next < n as usize {
        return Err(Defect {
            kind: Kind::Cbor,
            at,
        });
    }
    Ok(Span {
        from: next,
        to: next + n as usize,
    })
}

// A text string with low to high bytes of the class.
#[tactic(auto, unfolding(crate::specs::Reading::content_by))]
pub fn read_string(s: &[u8], at: usize, class: Class, low: u64, high: u64) -> Reading<Span>
    ensures { result ≡ read_string s.now at class low high }
{
    let span = read_run(s, at, major::TEXT, low, high)?;
    let from = span.from;
    let to = span.to;
    if content_is(&s[from..to], class) {
        return Ok(span);
    }
    Err(Defect {
        kind: Kind::Cbor,
        at: from,
    })
}
