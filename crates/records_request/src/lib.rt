// Request bodies. The reader takes a slice of any length; there is one defect, for ctx.bad has no place.
#![tactic(auto)]

ghost use Rattle.std.specs.Prelude.{◌≡◌, Option};
ghost use Rattle.records_request.specs.Reading.{fixed_at, peer_at, digest_at, rate_at, audience_at};
ghost use Rattle.records_request.specs.Reading.{extras_at, strings_at, request_of};
ghost use Rattle.records_request.specs.Inner.{IfFlagged};

use basis::{Span, limits};
use cbor_strings::Class;

pub mod flag;

// What stands in every body before the parts that the flags tell of.
#[derive(Clone, Copy)]
pub struct Numbers {
    pub now: u64,
    pub size: u64,
    pub skew: u64,
    pub flags: u64,
}

#[derive(Clone, Copy, Debug, PartialEq, Eq)]
pub struct Rate {
    pub per_s: u64,
    pub burst: u64,
}

#[derive(Clone, Copy)]
pub struct ExtrasAt {
    pub peer: Option<Span>,
    pub digest: Option<Span>,
    pub rate: Option<Rate>,
}

#[derive(Clone, Copy)]
pub struct StringsAt {
    pub method: Span,
    pub path: Span,
    pub tenant: Span,
    pub audience: Option<Span>,
}

// What a request holds: its numbers, and where its strings lie in its body.
#[derive(Clone, Copy)]
pub struct RequestAt {
    pub now: u64,
    pub size: u64,
    pub skew: u64,
    pub amnesia: bool,
    pub peer: Option<Span>,
    pub digest: Option<Span>,
    pub rate: Option<Rate>,
    pub method: Span,
    pub path: Span,
    pub tenant: Span,
    pub audience: Option<Span>,
}

#[tactic(auto, unfolding(crate::specs::Reading::fixed_at))]
fn fixed_at(s: &[u8]) -> Option<(Numbers, usize)>
    ensures { result ≡ fixed_at s.now }
{
    let (now, p) = records::little_at(s, 0, 8)?;
    let (size, q) = records::little_at(s, p, 8)?;
    let (skew, r) = records::little_at(s, q, 2)?;
    let (flags, next) = records::little_at(s, r, 1)?;
    if limits::SKEW_MOST < skew || flag::MOST < flags {
        return None;
    }
    let numbers = Numbers {
        now,
        size,
        skew,
        flags,
    };
    Some((numbers, next))
}

// A part that stands at a place if its flag is set, and where the next one begins.
fn if_flagged<T, F>(flags: u64, flag: u64, at: usize, read: F) -> Option<(Option<T>, usize)>
where
    F: FnOnce() -> Option<(T, usize)>,
    requires { F.IsAlwaysCallable read }
    ensures { IfFlagged (F.post read) flag flags at result }
{
    if flags & flag == 0 {
        return Some((None, at));
    }
    let (part, next) = read()?;
    Some((Some(part), next))
}

// The bytes of an address.
#[tactic(auto, unfolding(crate::specs::Reading::peer_at))]
fn peer_at(s: &[u8], at: usize) -> Option<(Span, usize)>
    ensures { result ≡ peer_at s.now at }
{
    let peer = records::run_at(s, at, 4)?;
    Some((peer, peer.to))
}

#[tactic(auto, unfolding(crate::specs::Reading::digest_at))]
fn digest_at(s: &[u8], at: usize) -> Option<(Span, usize)>
    ensures { result ≡ digest_at s.now at }
{
    let digest = records::run_at(s, at, limits::DIGEST_LENGTH)?;
    if cbor_strings::content_is(basis::lend(s, digest), Class::Hex) {
        return Some((digest, digest.to));
    }
    None
}

#[tactic(auto, unfolding(crate::specs::Reading::rate_at))]
fn rate_at(s: &[u8], at: usize) -> Option<(Rate, usize)>
    ensures { result ≡ rate_at s.now at }
{
    let (per_s, p) = records::little_at(s, at, 4)?;
    let (burst, next) = records::little_at(s, p, 4)?;
    Some((Rate { per_s, burst }, next))
}

#[tactic(auto, unfolding(crate::specs::Reading::audience_at))]
fn audience_at(s: &[u8], at: usize) -> Option<(Span, usize)>
    ensures { result ≡ audience_at s.now at }
{
    let audience = records::text_at(s, at, 2, Class::Printable, 1, limits::AUD_MOST)?;
    Some((audience, audience.to))
}

#[tactic(auto, unfolding(crate::specs::Reading::extras_at))]
fn extras_at(s: &[u8], flags: u64, at: usize) -> Option<(ExtrasAt, usize)>
    ensures { result ≡ extras_at s.now flags at }
{
    let (peer, p) = if_flagged(flags, flag::PEER, at, || peer_at(s, at))?;
    let (digest, q) = if_flagged(flags, flag::DIGEST, p, || digest_at(s, p))?;
    let (rate, next) = if_flagged(flags, flag::RATE, q, || rate_at(s, q))?;
    Some((ExtrasAt { peer, digest, rate }, next))
}

// The strings, behind which nothing follows.
#[tactic(auto, unfolding(crate::specs::Reading::strings_at))]
fn strings_at(s: &[u8], flags: u64, at: usize) -> Option<StringsAt>
    ensures { result ≡ strings_at s.now flags at }
{
    let method = records::text_at(s, at, 2, Class::Upper, 1, limits::METHOD_MOST)?;
    let path = records::text_at(s, method.to, 2, Class::Path, 1, limits::REQUEST_PATH_MOST)?;
    let tenant = records::text_at(s, path.to, 2, Class::Name, 1, limits::NAME_MOST)?;
    let p = tenant.to;
    let (audience, next) = if_flagged(flags, flag::AUDIENCE, p, || audience_at(s, p))?;
    if next < s.len() {
        return None;
    }
    Some(StringsAt {
        method,
        path,
        tenant,
        audience,
    })
}

#[tactic(auto, unfolding(crate::specs::Reading::request_of))]
pub fn read_request(s: &[u8]) -> Option<RequestAt>
    ensures { result ≡ request_of s.now }
{
    let (numbers, p) = fixed_at(s)?;
    let (extras, q) = extras_at(s, numbers.flags, p)?;
    let strings = strings_at(s, numbers.flags, q)?;
    Some(RequestAt {
        now: numbers.now,
        size: numbers.size,
        skew: numbers.skew,
        amnesia: numbers.flags & flag::AMNESIA != 0,
        peer: extras.peer,
        digest: extras.digest,
        rate: extras.rate,
        method: strings.method,
        path: strings.path,
        tenant: strings.tenant,
        audience: strings.audience,
    })
}
