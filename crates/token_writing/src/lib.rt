// Tokens written into room: the bytes of a fresh token around a scope, and of a child around its parent's
// parts and one caveat more. The room is asked for first, so that a refusal leaves it as it was.
#![tactic(auto)]

ghost use Rattle.std.specs.Prelude.{◌≡◌, ◌++◌, ◌+◌, ◌≤◌, min, length};
ghost use Rattle.basis.specs.Basis.{Written};
ghost use Rattle.token.specs.Tokens.{token_bytes};
ghost use Rattle.token.specs.Writing.{fresh_bytes};
ghost use Rattle.cbor_writing.specs.Placing.{Placed};
ghost use Rattle.token_writing.specs.Halves.{front_bytes, back_bytes, token_length};

use cbor_heads::major;

// The bytes of a token's parts other than its caveats, as they are lent.
#[derive(Clone, Copy)]
pub struct Parts<'a> {
    pub scope: &'a [u8],
    pub tag: &'a [u8],
    pub kid: &'a [u8],
    pub tid: &'a [u8],
}

// How long a token of these parts is, or the largest number where that would wrap; 18 bytes are the same in every one.
#[tactic(auto, using(cbor_heads::proofs::HeadLengths::head_nine))]
fn token_length(count: u64, caveats: usize, parts: Parts) -> usize
    ensures { result ≡ min (token_length count caveats parts.entry) 0xffffffffffffffff }
{
    let Parts {
        scope,
        tag,
        kid,
        tid,
    } = parts;
    let heads = cbor_writing::head_length(count) + cbor_writing::head_length(tag.len() as u64);
    let names = cbor_writing::head_length(kid.len() as u64)
        + cbor_writing::head_length(tid.len() as u64);
    (18 + heads + names)
        .saturating_add(caveats)
        .saturating_add(scope.len())
        .saturating_add(tag.len())
        .saturating_add(kid.len())
        .saturating_add(tid.len())
}

// c and r.
fn put_front(room: &mut [u8], count: u64, caveats: &[u8], caveat: &[u8], scope: &[u8]) -> usize
    requires { length (front_bytes count caveats.now caveat.now scope.now) ≤ length room.old }
    ensures { Placed (front_bytes count caveats.now caveat.now scope.now) room.old 0 result room.new }
{
    let a = cbor_writing::put_at(room, 0, b"\xa6\x61c");
    let b = cbor_writing::put_head(room, a, major::ARRAY, count);
    let c = cbor_writing::put_at(room, b, caveats);
    let d = cbor_writing::put_at(room, c, caveat);
    let e = cbor_writing::put_at(room, d, b"\x61r");
    cbor_writing::put_at(room, e, scope)
}

// s, v, kid and tid.
fn put_back(room: &mut [u8], at: usize, tag: &[u8], kid: &[u8], tid: &[u8]) -> usize
    requires { at + length (back_bytes tag.now kid.now tid.now) ≤ length room.old }
    ensures { Placed (back_bytes tag.now kid.now tid.now) room.old at result room.new }
{
    let a = cbor_writing::put_at(room, at, b"\x61s");
    let b = cbor_writing::put_string(room, a, major::BYTES, tag);
    let c = cbor_writing::put_at(room, b, b"\x61v\x01\x63kid");
    let d = cbor_writing::put_string(room, c, major::TEXT, kid);
    let e = cbor_writing::put_at(room, d, b"\x63tid");
    cbor_writing::put_string(room, e, major::TEXT, tid)
}

// A token around its parts, with `count` caveats: those of `caveats`, and behind them `caveat`. It answers
// how many bytes were written; none are where the room is too short.
pub fn write_token(
    count: u64,
    caveats: &[u8],
    caveat: &[u8],
    parts: Parts,
    room: &mut [u8],
) -> Option<usize>
    ensures { Written (token_bytes count (caveats.now ++ caveat.now) parts.entry.scope.now
        parts.entry.tag.now parts.entry.kid.now parts.entry.tid.now) room.old result room.new }
{
    let all = caveats.len().saturating_add(caveat.len());
    if room.len() < token_length(count, all, parts) {
        return None;
    }
    let p = put_front(room, count, caveats, caveat, parts.scope);
    Some(put_back(room, p, parts.tag, parts.kid, parts.tid))
}

pub fn write_fresh(parts: Parts, room: &mut [u8]) -> Option<usize>
    ensures { Written (fresh_bytes parts.entry.scope.now parts.entry.tag.now parts.entry.kid.now parts.entry.tid.now)
        room.old result room.new }
{
    write_token(0, b"", b"", parts, room)
}
