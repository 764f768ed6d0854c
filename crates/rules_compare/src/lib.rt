// The comparisons that scope and caveats are judged by, each of one part of a token with one part of a request,
// where they lie.
#![tactic(auto)]

ghost use Rattle.std.specs.Prelude.{◌≡◌, ◌+◌, nat_le};
ghost use Rattle.rules_compare.specs.Fitting.{fits_of};
ghost use Rattle.rules_compare.specs.Comparing.{member_in, rate_holds, prefix_fits, limit_holds};
ghost use Rattle.rules_compare.specs.Comparing.{part_is, peer_agrees};

use basis::{Span, limits};
use cbor_strings::Class;
use cbor_values::ListAt;
use records_request::Rate;
use token_cidr::Network;

// Whether a prefix fits a path: the path begins with it, and a "/" parts it from what lies behind, if anything does.
#[tactic(auto, using(crate::proofs::Walks::not_begun, crate::proofs::Walks::path_ends, crate::proofs::Walks::slash_before, crate::proofs::Walks::slash_behind, crate::proofs::Walks::slash_at))]
pub fn fits(prefix: &[u8], path: &[u8]) -> bool
    ensures { result ≡ fits_of prefix.now path.now }
{
    let Some(rest) = path.strip_prefix(prefix) else {
        return false;
    };
    let Some(&next) = rest.first() else {
        return true;
    };
    next == b'/' || prefix.last() == Some(&b'/')
}

// Whether a method is one of a list.
#[tactic(auto, using(crate::proofs::Walks::in_order, crate::proofs::Walks::within))]
pub fn method_in(s: &[u8], methods: ListAt, method: &[u8]) -> bool
    ensures { result ≡ member_in s.now methods method.now }
{
    let mut p = methods.span.from;
    for _ in 0..methods.count {
        let Ok(span) = cbor_strings::read_string(s, p, Class::Upper, 1, limits::METHOD_MOST) else {
            return false;
        };
        if &s[span.from..span.to] == method {
            return true;
        }
        p = span.to;
    }
    false
}

// Whether a is at most b and the skew. The sum is that of whole numbers: past the top no time lies behind it.
pub fn within_skew(a: u64, b: u64, skew: u64) -> bool
    ensures { result ≡ nat_le a (b + skew) }
{
    a <= b.saturating_add(skew)
}

#[tactic(auto, unfolding(crate::specs::Comparing::rate_holds))]
pub fn rate_holds(rate: Option<Rate>, per_s: u64, burst: u64) -> bool
    ensures { result ≡ rate_holds rate per_s burst }
{
    rate.is_some_and(|rate| rate.per_s <= per_s && rate.burst <= burst)
}

#[tactic(auto, unfolding(crate::specs::Comparing::prefix_fits))]
pub fn prefix_fits(s: &[u8], prefix: Option<Span>, path: &[u8]) -> bool
    ensures { result ≡ prefix_fits s.now prefix path.now }
{
    prefix.is_none_or(|span| fits(basis::lend(s, span), path))
}

#[tactic(auto, unfolding(crate::specs::Comparing::limit_holds))]
pub fn limit_holds(limit: Option<u64>, size: u64) -> bool
    ensures { result ≡ limit_holds limit size }
{
    limit.is_none_or(|most| size <= most)
}

// Whether a part is present and holds these bytes.
#[tactic(auto, unfolding(crate::specs::Comparing::part_is))]
pub fn part_is(body: &[u8], part: Option<Span>, x: &[u8]) -> bool
    ensures { result ≡ part_is body.now part x.now }
{
    part.is_some_and(|span| x == basis::lend(body, span))
}

// Whether the first bits of a present peer are those of the network's address.
#[tactic(auto, unfolding(crate::specs::Comparing::peer_agrees))]
pub fn peer_agrees(body: &[u8], peer: Option<Span>, network: Network) -> bool
    ensures { result ≡ peer_agrees body.now peer network }
{
    peer.is_some_and(|span| {
        token_cidr::first_bits_agree(&network.address, basis::lend(body, span), network.size)
    })
}
