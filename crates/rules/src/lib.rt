// What holds when: document 01's rules, judged where the parts lie.
#![tactic(auto)]

ghost use Rattle.std.specs.Prelude.{◌≡◌};
ghost use Rattle.answers.specs.Answers.{number_of};
ghost use Rattle.rules.specs.Judging.{scope_judged, caveat_held, failing_of, caveat_judged};

use answers::Answer;
use records_request::RequestAt;
use token_caveat_values::CaveatAt;
use token_scope::ScopeAt;

// Allow, or the answer of the first of method, path and bytes that fails.
#[tactic(auto, unfolding(crate::specs::Judging::scope_judged))]
pub fn scope_answer(s: &[u8], scope: ScopeAt, body: &[u8], request: RequestAt) -> Answer
    ensures { number_of result ≡ scope_judged s.now scope body.now request }
{
    let method = request.method;
    let path = request.path;
    let methods = scope.methods;
    let prefix = scope.prefix;
    let limit = scope.max_bytes;
    if !rules_compare::method_in(s, methods, basis::lend(body, method)) {
        return Answer::CaveatMethod;
    }
    if !rules_compare::prefix_fits(s, prefix, basis::lend(body, path)) {
        return Answer::CaveatPath;
    }
    if !rules_compare::limit_holds(limit, request.size) {
        return Answer::CaveatBytes;
    }
    Answer::Allow
}

// `s` is the part that the caveat was read from, and `tid` the token's.
#[tactic(auto, unfolding(crate::specs::Judging::caveat_held, crate::specs::Judging::amnesia_held))]
fn caveat_holds(s: &[u8], caveat: CaveatAt, body: &[u8], request: RequestAt, tid: &[u8]) -> bool
    ensures { result ≡ caveat_held s.now caveat body.now request tid.now }
{
    match caveat {
        CaveatAt::Exp { n } => rules_compare::within_skew(request.now, n, request.skew),
        CaveatAt::Nbf { n } => rules_compare::within_skew(n, request.now, request.skew),
        CaveatAt::Aud { span } => {
            let audience = request.audience;
            rules_compare::part_is(body, audience, basis::lend(s, span))
        }
        CaveatAt::Method { methods } => {
            let method = request.method;
            rules_compare::method_in(s, methods, basis::lend(body, method))
        }
        CaveatAt::PathPrefix { span } => {
            let path = request.path;
            rules_compare::fits(basis::lend(s, span), basis::lend(body, path))
        }
        CaveatAt::IpCidr { network } => {
            let peer = request.peer;
            rules_compare::peer_agrees(body, peer, network)
        }
        CaveatAt::BytesLe { n } => request.size <= n,
        CaveatAt::Rate { per_s, burst } => {
            let rate = request.rate;
            rules_compare::rate_holds(rate, per_s, burst)
        }
        CaveatAt::Tenant { span } => basis::lend(s, span) == tid,
        CaveatAt::Amnesia { on } => !on || request.amnesia,
        CaveatAt::GovPolicyDigest { span } => {
            let digest = request.digest;
            rules_compare::part_is(body, digest, basis::lend(s, span))
        }
        CaveatAt::Custom { .. } => false,
    }
}

// The answer where a caveat fails.
#[tactic(auto, unfolding(crate::specs::Judging::failing_of))]
fn failing(caveat: CaveatAt) -> Answer
    ensures { number_of result ≡ failing_of caveat }
{
    match caveat {
        CaveatAt::Exp { .. } => Answer::CaveatExp,
        CaveatAt::Nbf { .. } => Answer::CaveatNbf,
        CaveatAt::Aud { .. } => Answer::CaveatAud,
        CaveatAt::Method { .. } => Answer::CaveatMethod,
        CaveatAt::PathPrefix { .. } => Answer::CaveatPath,
        CaveatAt::IpCidr { .. } => Answer::CaveatIp,
        CaveatAt::BytesLe { .. } => Answer::CaveatBytes,
        CaveatAt::Rate { .. } => Answer::CaveatRate,
        CaveatAt::Tenant { .. } => Answer::CaveatTenant,
        CaveatAt::Amnesia { .. } => Answer::CaveatAmnesia,
        CaveatAt::GovPolicyDigest { .. } => Answer::CaveatPolicyDigest,
        CaveatAt::Custom { .. } => Answer::CaveatCustomUnknown,
    }
}

// Allow, or the caveat's own answer.
#[tactic(auto, unfolding(crate::specs::Judging::caveat_judged))]
pub fn caveat_answer(
    s: &[u8],
    caveat: CaveatAt,
    body: &[u8],
    request: RequestAt,
    tid: &[u8],
) -> Answer
    ensures { number_of result ≡ caveat_judged s.now caveat body.now request tid.now }
{
    if caveat_holds(s, caveat, body, request, tid) {
        return Answer::Allow;
    }
    failing(caveat)
}
