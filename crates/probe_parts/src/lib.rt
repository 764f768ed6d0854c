// Scopes, caveats and tokens as the host tests read them. Nothing of the product stands on it.
#![tactic(auto)]

ghost use Rattle.std.specs.Prelude.{◌≡◌, ◌++◌, ℕ, Option, unwrap_or};
ghost use Rattle.basis.specs.Basis.{Written};
ghost use Rattle.token.specs.Tokens.{token_bytes};
ghost use Rattle.token_scope.specs.Reading.{scope_of};
ghost use Rattle.token_caveat.specs.Reading.{caveat_of};
ghost use Rattle.token.specs.Reading.{token_of};
ghost use Rattle.probe_parts.specs.PartsProbes.{refused, limit_probe, scope_probe, caveat_probe, token_probe};
ghost use Rattle.probe_parts.specs.PartsProbes.{demand_of, demand_probe};
ghost use Rattle.token_caveat_values.specs.declared.CaveatAt.TheVariants.{Method, Custom};

use answers::Answer;
use basis::Span;
use cbor_heads::defect::{Defect, Reading};
use cbor_keys::index;
use cbor_values::ListAt;
use token::TokenAt;
use token_caveat_values::{CaveatAt, CustomAt};
use token_scope::ScopeAt;

// An answer as numbers: a host cannot take an enum apart by Rattle's layout.
#[repr(C)]
#[derive(Clone, Copy)]
pub struct Parts {
    pub kind: u32,
    pub numbers: [u64; 10],
}

fn refused(defect: Defect) -> Parts
    ensures { result ≡ refused defect }
{
    Parts {
        kind: Answer::from(defect).into(),
        numbers: [defect.at as u64, 0, 0, 0, 0, 0, 0, 0, 0, 0],
    }
}

// A scope whose prefix lies at `prefix`.
fn limit_probe(prefix: Span, methods: ListAt, limit: Option<u64>, next: usize) -> Parts
    ensures { result ≡ limit_probe prefix methods limit next }
{
    let (there, most) = match limit {
        None => (0, 0),
        Some(n) => (1, n),
    };
    Parts {
        kind: 0,
        numbers: [
            prefix.from as u64,
            prefix.to as u64,
            methods.count,
            methods.span.from as u64,
            methods.span.to as u64,
            there,
            most,
            next as u64,
            0,
            0,
        ],
    }
}

fn scope_probe(p: Reading<(ScopeAt, usize)>) -> Parts
    ensures { result ≡ scope_probe p }
{
    match p {
        Err(defect) => refused(defect),
        Ok((scope, next)) => {
            let methods = scope.methods;
            let max_bytes = scope.max_bytes;
            match scope.prefix {
                None => limit_probe(Span { from: 0, to: 0 }, methods, max_bytes, next),
                Some(span) => limit_probe(span, methods, max_bytes, next),
            }
        }
    }
}

// Which caveat it is, up to three numbers of it, and its length.
fn demand_of(t: u32, a: u64, b: u64, c: u64, next: usize) -> Parts
    ensures { result ≡ demand_of t a b c next }
{
    Parts {
        kind: 0,
        numbers: [u64::from(t), a, b, c, 0, 0, 0, 0, 0, next as u64],
    }
}

fn span_demand(t: u32, span: Span, next: usize) -> Parts
    ensures { result ≡ demand_of t span.from span.to 0 next }
{
    demand_of(t, span.from as u64, span.to as u64, 0, next)
}

fn methods_demand(methods: ListAt, next: usize) -> Parts
    ensures { result ≡ demand_probe (Method methods) next }
{
    let span = methods.span;
    demand_of(
        index::T_METHOD,
        methods.count,
        span.from as u64,
        span.to as u64,
        next,
    )
}

fn custom_demand(custom: CustomAt, next: usize) -> Parts
    ensures { result ≡ demand_probe (Custom custom) next }
{
    Parts {
        kind: 0,
        numbers: [
            u64::from(index::T_CUSTOM),
            custom.ns.from as u64,
            custom.ns.to as u64,
            custom.value.from as u64,
            custom.value.to as u64,
            custom.name.from as u64,
            custom.name.to as u64,
            0,
            0,
            next as u64,
        ],
    }
}

// What a caveat of a length demands.
fn demand_probe(caveat: CaveatAt, next: usize) -> Parts
    ensures { result ≡ demand_probe caveat next }
{
    match caveat {
        CaveatAt::Exp { n } => demand_of(index::T_EXP, n, 0, 0, next),
        CaveatAt::Nbf { n } => demand_of(index::T_NBF, n, 0, 0, next),
        CaveatAt::Aud { span } => span_demand(index::T_AUD, span, next),
        CaveatAt::Method { methods } => methods_demand(methods, next),
        CaveatAt::PathPrefix { span } => span_demand(index::T_PATH_PREFIX, span, next),
        CaveatAt::IpCidr { network } => {
            let address = u64::from(u32::from_be_bytes(network.address));
            demand_of(index::T_IP_CIDR, address, u64::from(network.size), 0, next)
        }
        CaveatAt::BytesLe { n } => demand_of(index::T_BYTES_LE, n, 0, 0, next),
        CaveatAt::Rate { per_s, burst } => demand_of(index::T_RATE, per_s, burst, 0, next),
        CaveatAt::Tenant { span } => span_demand(index::T_TENANT, span, next),
        CaveatAt::Amnesia { on } => demand_of(index::T_AMNESIA, u64::from(on), 0, 0, next),
        CaveatAt::GovPolicyDigest { span } => {
            span_demand(index::T_GOV_POLICY_DIGEST, span, next)
        }
        CaveatAt::Custom { custom } => custom_demand(custom, next),
    }
}

fn caveat_probe(p: Reading<(CaveatAt, usize)>) -> Parts
    ensures { result ≡ caveat_probe p }
{
    match p {
        Err(defect) => refused(defect),
        Ok((caveat, next)) => demand_probe(caveat, next),
    }
}

fn token_probe(p: Reading<TokenAt>) -> Parts
    ensures { result ≡ token_probe p }
{
    match p {
        Err(defect) => refused(defect),
        Ok(token) => Parts {
            kind: 0,
            numbers: [
                token.caveats.count,
                token.caveats.span.from as u64,
                token.caveats.span.to as u64,
                token.scope.from as u64,
                token.scope.to as u64,
                token.tag.from as u64,
                token.kid.from as u64,
                token.kid.to as u64,
                token.tid.from as u64,
                token.tid.to as u64,
            ],
        },
    }
}

#[unsafe(no_mangle)]
pub extern "C" fn probe_read_scope(s: &[u8], at: usize) -> Parts
    ensures { result ≡ scope_probe (scope_of s.now at) }
{
    scope_probe(token_scope::read_scope(s, at))
}

#[unsafe(no_mangle)]
pub extern "C" fn probe_read_caveat(s: &[u8]) -> Parts
    ensures { result ≡ caveat_probe (caveat_of s.now) }
{
    caveat_probe(token_caveat::read_caveat(s))
}

#[unsafe(no_mangle)]
pub extern "C" fn probe_read_token(s: &[u8]) -> Parts
    ensures { result ≡ token_probe (token_of s.now) }
{
    token_probe(token::read_token(s))
}

// The token's length is told, 0 where the room is too short.
#[unsafe(no_mangle)]
pub extern "C" fn probe_write_token(
    count: u64,
    caveats: &[u8],
    caveat: &[u8],
    scope: &[u8],
    tag: &[u8],
    kid: &[u8],
    tid: &[u8],
    room: &mut [u8],
) -> usize
    ensures { (length : Option ℕ)
        × Written (token_bytes count (caveats.now ++ caveat.now) scope.now tag.now kid.now tid.now)
        room.old length room.new
        × (result ≡ unwrap_or length 0) }
{
    let parts = token_writing::Parts {
        scope,
        tag,
        kid,
        tid,
    };
    token_writing::write_token(count, caveats, caveat, parts, room).unwrap_or(0)
}
