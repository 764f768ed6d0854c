// The values of a custom caveat: read by recursion with the remaining depth as the falling number, in
// a slice of any length, with any count of elements. UTF-8 by RFC 3629. And lists of items, whatever the items are.
#![tactic(auto)]

ghost use Rattle.std.specs.Prelude.{◌≡◌, List, ℕ, ◌<◌, ◌≤◌, length};
ghost use Rattle.cbor_heads.specs.Defects.{Reading};
ghost use Rattle.cbor_values.specs.Utf8.{asks, lead_of, step_of, utf8};
ghost use Rattle.cbor_values.specs.Reading.{run_of, text_of, items_of, value_of};

use basis::Span;
use cbor_heads::defect::{Defect, Kind, Reading};
use cbor_heads::{Head, major};

// How many bytes must still follow, and from where to where the first of them goes.
#[derive(Clone, Copy)]
pub struct Due {
    pub n: u8,
    pub low: u8,
    pub high: u8,
}

// A list as it lies: how many items there are, and from where to where.
#[derive(Clone, Copy)]
pub struct ListAt {
    pub count: u64,
    pub span: Span,
}

// What lists are made of: the item at a place ends where `item` says.
pub trait Item {
    ghost item: { List ℕ → ℕ → Reading ℕ };

    fn end(s: &[u8], at: usize) -> Reading<usize>
        ensures { result ≡ item s.now at };
}

// Where so many items end that stand one behind the other, or the first defect in one.
pub fn items_end<I: Item>(s: &[u8], at: usize, count: u64) -> Reading<usize>
    ensures { result ≡ items_of (I.item s.now) count at }
{
    let mut p = at;
    for _ in 0..count {
        p = I::end(s, p)?;
    }
    Ok(p)
}

fn asks(n: u8, low: u8, high: u8) -> Option<Due>
    ensures { result ≡ asks n low high }
{
    Some(Due { n, low, high })
}

// Those that come most are asked for first: as one `match` a text of ASCII takes two thirds more time, and one of two
// bytes a character half as much again.
#[tactic(auto, unfolding(crate::specs::Utf8::lead_of))]
fn lead_of(c: u8) -> Option<Due>
    ensures { result ≡ lead_of c }
{
    if c.is_ascii() {
        return asks(0, 0x80, 0xbf);
    }
    if c < 0xc2 {
        return None;
    }
    if c < 0xe0 {
        return asks(1, 0x80, 0xbf);
    }
    if c == 0xe0 {
        return asks(2, 0xa0, 0xbf);
    }
    if c < 0xed {
        return asks(2, 0x80, 0xbf);
    }
    match c {
        0xed => asks(2, 0x80, 0x9f),
        0xee..=0xef => asks(2, 0x80, 0xbf),
        0xf0 => asks(3, 0x90, 0xbf),
        0xf1..=0xf3 => asks(3, 0x80, 0xbf),
        0xf4 => asks(3, 0x80, 0x8f),
        _ => None,
    }
}

#[tactic(auto, unfolding(crate::specs::Utf8::step_of))]
fn step(c: u8, asked: Due) -> Option<Due>
    ensures { result ≡ step_of c asked }
{
    if asked.n == 0 {
        return lead_of(c);
    }
    if c < asked.low {
        return None;
    }
    if asked.high < c {
        return None;
    }
    asks(asked.n - 1, 0x80, 0xbf)
}

pub fn is_utf8(s: &[u8]) -> bool
    ensures { result ≡ utf8 s.now }
{
    let mut asked = Due {
        n: 0,
        low: 0x80,
        high: 0xbf,
    };
    for &c in s {
        let Some(next) = step(c, asked) else {
            return false;
        };
        asked = next;
    }
    asked.n == 0
}

// n bytes from `next` on; the head stands at `at`.
#[tactic(auto, unfolding(crate::specs::Reading::run_of))]
fn run(s: &[u8], at: usize, next: usize, n: u64) -> Reading<usize>
    requires { next ≤ length s.now }
    ensures { result ≡ run_of s.now at next n }
{
    if s.len() - next < n as usize {
        return Err(Defect {
            kind: Kind::Cbor,
            at,
        });
    }
    Ok(next + n as usize)
}

#[tactic(auto, unfolding(crate::specs::Reading::run_of, crate::specs::Reading::text_of))]
fn text(s: &[u8], at: usize, next: usize, n: u64) -> Reading<usize>
    requires { next ≤ length s.now }
    ensures { result ≡ text_of s.now at next n }
{
    let end = run(s, at, next, n)?;
    if is_utf8(&s[next..end]) {
        return Ok(end);
    }
    Err(Defect {
        kind: Kind::Cbor,
        at: next,
    })
}

// One value at `at`, with `depth` levels of arrays left.
#[cycle(items_read_value)]
#[tactic(auto, using(crate::proofs::ItemReads::too_small, crate::proofs::ItemReads::simple, crate::proofs::ItemReads::too_large))]
pub fn read_value(s: &[u8], at: usize, depth: u8) -> Reading<usize>
    ensures { result ≡ value_of depth s.now at }
{
    let Head {
        major,
        value: n,
        next,
    } = cbor_heads::read_head(s, at)?;
    match major {
        major::UNSIGNED | major::NEGATIVE => Ok(next),
        major::BYTES => run(s, at, next, n),
        major::TEXT => text(s, at, next, n),
        major::ARRAY => {
            if depth == 0 {
                Err(Defect {
                    kind: Kind::Bounds,
                    at,
                })
            } else {
                items(s, next, n, depth - 1)
            }
        }
        major::SIMPLE => {
            if n < major::FALSE {
                return Err(Defect {
                    kind: Kind::Cbor,
                    at,
                });
            }
            if n <= major::NULL {
                return Ok(next);
            }
            Err(Defect {
                kind: Kind::Cbor,
                at,
            })
        }
        _ => Err(Defect {
            kind: Kind::Cbor,
            at,
        }),
    }
}

// Not `items_end`: the check takes no recursion through a type parameter.
#[cycle(items_read_value)]
fn items(s: &[u8], at: usize, count: u64, depth: u8) -> Reading<usize>
    ensures { result ≡ items_of (value_of depth s.now) count at }
{
    let mut p = at;
    for _ in 0..count {
        p = read_value(s, p, depth)?;
    }
    Ok(p)
}
