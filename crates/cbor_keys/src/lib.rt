// The keys of each map and the names of t: read as text of any length, found among the names of their
// place, and told by their index there. A defect carries its kind and the place.
#![tactic(auto)]

ghost use Rattle.std.specs.Prelude.{◌≡◌};
ghost use Rattle.cbor_keys.specs.Reading.{index_of_key, key_at, wanted_key};
ghost use Rattle.cbor_keys.specs.Fields.{name_field, number_field};

use basis::{Span, limits};
use cbor_heads::defect::{Defect, Kind, Reading};
use cbor_heads::major;
use cbor_strings::Class;

pub mod index;

// The places with names of their own: the keys of each map, and what a caveat's t may be.
#[derive(Clone, Copy)]
pub enum Names {
    Token,
    Scope,
    Caveat,
    T,
    Rate,
    Custom,
}

// The index of a name among those of its place.
#[tactic(auto, unfolding(crate::specs::Keys::keys_of, crate::specs::Reading::index_from))]
fn key_index(names: Names, c: &[u8]) -> Option<u32>
    ensures { result ≡ index_of_key names c.now }
{
    match (names, c) {
        (Names::Token, b"c") => Some(index::TOKEN_C),
        (Names::Token, b"r") => Some(index::TOKEN_R),
        (Names::Token, b"s") => Some(index::TOKEN_S),
        (Names::Token, b"v") => Some(index::TOKEN_V),
        (Names::Token, b"kid") => Some(index::TOKEN_KID),
        (Names::Token, b"tid") => Some(index::TOKEN_TID),
        (Names::Scope, b"prefix") => Some(index::SCOPE_PREFIX),
        (Names::Scope, b"methods") => Some(index::SCOPE_METHODS),
        (Names::Scope, b"max_bytes") => Some(index::SCOPE_MAX_BYTES),
        (Names::Caveat, b"t") => Some(index::CAVEAT_T),
        (Names::Caveat, b"v") => Some(index::CAVEAT_V),
        (Names::T, b"exp") => Some(index::T_EXP),
        (Names::T, b"nbf") => Some(index::T_NBF),
        (Names::T, b"aud") => Some(index::T_AUD),
        (Names::T, b"method") => Some(index::T_METHOD),
        (Names::T, b"path_prefix") => Some(index::T_PATH_PREFIX),
        (Names::T, b"ip_cidr") => Some(index::T_IP_CIDR),
        (Names::T, b"bytes_le") => Some(index::T_BYTES_LE),
        (Names::T, b"rate") => Some(index::T_RATE),
        (Names::T, b"tenant") => Some(index::T_TENANT),
        (Names::T, b"amnesia") => Some(index::T_AMNESIA),
        (Names::T, b"gov_policy_digest") => Some(index::T_GOV_POLICY_DIGEST),
        (Names::T, b"custom") => Some(index::T_CUSTOM),
        (Names::Rate, b"burst") => Some(index::RATE_BURST),
        (Names::Rate, b"per_s") => Some(index::RATE_PER_S),
        (Names::Custom, b"ns") => Some(index::CUSTOM_NS),
        (Names::Custom, b"cbor") => Some(index::CUSTOM_CBOR),
        (Names::Custom, b"name") => Some(index::CUSTOM_NAME),
        _ => None,
    }
}

// A name by its index among those of its place, and where it ends.
#[tactic(auto, unfolding(crate::specs::Reading::known_by, crate::specs::Reading::key_by))]
pub fn key_at(s: &[u8], at: usize, names: Names) -> Reading<(u32, usize)>
    ensures { result ≡ key_at names s.now at }
{
    let span = cbor_strings::read_run(s, at, major::TEXT, 0, limits::NUMBER_MOST)?;
    let index = key_index(names, &s[span.from..span.to]).ok_or(Defect {
        kind: Kind::Unknown,
        at,
    })?;
    Ok((index, span.to))
}

// Where the key wanted ends.
#[tactic(auto, unfolding(crate::specs::Reading::wanted_by))]
pub fn wanted_key(s: &[u8], at: usize, names: Names, want: u32) -> Reading<usize>
    ensures { result ≡ wanted_key names s.now at want }
{
    let (index, next) = key_at(s, at, names)?;
    if index == want {
        return Ok(next);
    }
    Err(Defect {
        kind: Kind::Cbor,
        at,
    })
}

// The key wanted and a name behind it, as ns, name, kid and tid are.
pub fn name_field(s: &[u8], at: usize, names: Names, want: u32) -> Reading<Span>
    ensures { result ≡ name_field names s.now at want }
{
    let next = wanted_key(s, at, names, want)?;
    cbor_strings::read_string(s, next, Class::Name, 1, limits::NAME_MOST)
}

// The key wanted and a number behind it, as max_bytes, burst and per_s are.
pub fn number_field(
    s: &[u8],
    at: usize,
    names: Names,
    want: u32,
    most: u64,
) -> Reading<(u64, usize)>
    ensures { result ≡ number_field names s.now at want most }
{
    let next = wanted_key(s, at, names, want)?;
    cbor_heads::number_up_to(s, next, most)
}
