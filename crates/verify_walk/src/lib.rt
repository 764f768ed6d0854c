// A token whose key is found: one walk reads, hashes and judges its caveats where they lie; then the tag decides
// first, and behind it tenant, scope and caveats.
#![tactic(auto)]

ghost use Rattle.std.specs.Prelude.{◌≡◌};
ghost use Rattle.basis.specs.Basis.{from_to, between};
ghost use Rattle.basis.specs.Same.{same_of};
ghost use Rattle.hash_chain.specs.Chain.{next_link};
ghost use Rattle.hash_chain.specs.Inner.{NextOf};
ghost use Rattle.answers.specs.Answers.{number_of};
ghost use Rattle.rules.specs.Judging.{caveat_judged};
ghost use Rattle.verify_walk.specs.Walking.{links_of, so_far, walk_ends, walked_of, scope_answered, link_first, key_judged};
ghost use Rattle.verify_walk.specs.Ready.{Walkable, Ready};

use answers::Answer;
use basis::Span;
use cbor_values::ListAt;
use records_request::RequestAt;
use token::TokenAt;
use token_caveat_values::CaveatAt;

// The last link, and the answer of the first caveat that fails.
#[derive(Clone, Copy)]
pub struct Walked {
    pub link: [u8; 32],
    pub answer: Answer,
}

// A caveat is hashed as it lies, from its first byte on: no code writes it anew.
fn link_over(key: &[u8], link: [u8; 32], part: &[u8], next: usize) -> [u8; 32]
    requires { NextOf key.now (between part.now (from_to 0 next)) }
    ensures { result ≡ next_link key.now link (between part.now (from_to 0 next)) }
{
    let caveat = Span { from: 0, to: next };
    hash_chain::next_link(key, link, basis::lend(part, caveat))
}

// The last link of a token's chain, over the caveats where they lie.
pub fn links(s: &[u8], caveats: ListAt, key: &[u8], first: [u8; 32]) -> [u8; 32]
    requires { Walkable key.now s.now }
    ensures { result ≡ links_of s.now caveats key.now first }
{
    let mut p = caveats.span.from.min(s.len());
    let mut link = first;
    for _ in 0..caveats.count {
        let part = &s[p..];
        let Ok((_, next)) = token_caveat::read_caveat(part) else {
            return link;
        };
        let joined = link_over(key, link, part, next);
        link = joined;
        p += next;
    }
    link
}

// The first answer that is not allow stays; no later caveat is judged.
#[tactic(auto, unfolding(crate::specs::Walking::so_far), using(answers::proofs::Distinct::numbers_differ))]
fn so_far(
    answer: Answer,
    part: &[u8],
    caveat: CaveatAt,
    body: &[u8],
    request: RequestAt,
    tid: &[u8],
) -> Answer
    ensures { number_of result ≡ so_far (number_of answer) (caveat_judged part.now caveat body.now request tid.now) }
{
    if answer == Answer::Allow {
        return rules::caveat_answer(part, caveat, body, request, tid);
    }
    answer
}

// One walk over the caveats: each is read, hashed and judged where it lies.
fn walk(
    s: &[u8],
    caveats: ListAt,
    key: &[u8],
    first: [u8; 32],
    body: &[u8],
    request: RequestAt,
    tid: &[u8],
) -> Walked
    requires { Walkable key.now s.now }
    ensures { walk_ends result.link (number_of result.answer) ≡ walked_of s.now caveats key.now body.now request tid.now first }
{
    let mut p = caveats.span.from.min(s.len());
    let mut link = first;
    let mut answer = Answer::Allow;
    for _ in 0..caveats.count {
        let part = &s[p..];
        match token_caveat::read_caveat(part) {
            Err(defect) => {
                let answer = defect.into();
                return Walked { link, answer };
            }
            Ok((caveat, next)) => {
                let joined = link_over(key, link, part, next);
                link = joined;
                answer = so_far(answer, part, caveat, body, request, tid);
                p += next;
            }
        }
    }
    Walked { link, answer }
}

#[tactic(auto, unfolding(crate::specs::Walking::scope_then))]
fn scope_answered(s: &[u8], at: usize, body: &[u8], request: RequestAt) -> Answer
    ensures { number_of result ≡ scope_answered s.now at body.now request }
{
    match token_scope::read_scope(s, at) {
        Err(defect) => defect.into(),
        Ok((scope, _)) => rules::scope_answer(s, scope, body, request),
    }
}

// Looks at all 32 bytes whether or not they differ: no early end tells how much of a tag was right.
pub fn same_tag(link: [u8; 32], tag: &[u8]) -> bool
    ensures { result ≡ same_of link tag.now }
{
    if tag.len() != 32 {
        return false;
    }
    let mut same = true;
    for i in 0..32 {
        if link[i] != tag[i] {
            same = false;
        }
    }
    same
}

// The link that the chain of a token begins with.
pub fn link_first(key: &[u8], s: &[u8], token: TokenAt) -> [u8; 32]
    requires { Ready key.now s.now token }
    ensures { result ≡ link_first key.now s.now token }
{
    let tid = token.tid;
    let kid = token.kid;
    let scope = token.scope;
    hash_chain::first_link(
        key,
        basis::lend(s, tid),
        basis::lend(s, kid),
        basis::lend(s, scope),
    )
}

// With the key: the tag over all its bytes, the tenant, the scope, the caveats.
#[tactic(auto, using(crate::proofs::Keyed::scope_holds, crate::proofs::Keyed::scope_fails, crate::proofs::Keyed::other_tenant, crate::proofs::Keyed::other_tag))]
pub fn with_key(key: &[u8], s: &[u8], token: TokenAt, body: &[u8], request: RequestAt) -> Answer
    requires { Ready key.now s.now token }
    ensures { number_of result ≡ key_judged key.now s.now token body.now request }
{
    let caveats = token.caveats;
    let tag = token.tag;
    let id = token.tid;
    let asker = request.tenant;
    let tid = basis::lend(s, id);
    let first = link_first(key, s, token);
    let walked = walk(s, caveats, key, first, body, request, tid);
    let link = walked.link;
    if !same_tag(link, basis::lend(s, tag)) {
        return Answer::MacMismatch;
    }
    if tid != basis::lend(body, asker) {
        return Answer::TenantMismatch;
    }
    let scope = scope_answered(s, token.scope.from, body, request);
    if scope != Answer::Allow {
        return scope;
    }
    walked.answer
}
