// The values of caveats, a reader for each kind that is no plain number or text: digest, methods, address prefix,
// rate, flag and custom value. A defect carries its kind and the place of the item at fault.
#![tactic(auto)]

ghost use Rattle.std.specs.Prelude.{◌≡◌};
ghost use Rattle.token_caveat_values.specs.Values.{digest_value, method_value, cidr_value, amnesia_value};
ghost use Rattle.token_caveat_values.specs.Maps.{rate_value, custom_value};

use basis::{Span, limits};
use cbor_heads::defect::{Defect, Kind, Reading};
use cbor_heads::major;
use cbor_keys::{Names, index};
use cbor_strings::Class;
use cbor_values::ListAt;
use token_cidr::Network;

// Where the parts of a custom caveat lie.
#[derive(Clone, Copy)]
pub struct CustomAt {
    pub ns: Span,
    pub value: Span,
    pub name: Span,
}

// A caveat by value: its numbers, and where its strings and lists lie in the part.
#[derive(Clone, Copy)]
pub enum CaveatAt {
    Exp { n: u64 },
    Nbf { n: u64 },
    Aud { span: Span },
    Method { methods: ListAt },
    PathPrefix { span: Span },
    IpCidr { network: Network },
    BytesLe { n: u64 },
    Rate { per_s: u64, burst: u64 },
    Tenant { span: Span },
    Amnesia { on: bool },
    GovPolicyDigest { span: Span },
    Custom { custom: CustomAt },
}

// A digest has no range of its own: a wrong length is a defect of form like any other.
#[tactic(auto, unfolding(crate::specs::Values::digest_value))]
pub fn digest_value(s: &[u8], at: usize) -> Reading<(CaveatAt, usize)>
    ensures { result ≡ digest_value s.now at }
{
    let length = limits::DIGEST_LENGTH;
    match cbor_strings::read_string(s, at, Class::Hex, length, length) {
        Ok(span) => Ok((CaveatAt::GovPolicyDigest { span }, span.to)),
        Err(Defect { at, .. }) => Err(Defect {
            kind: Kind::Cbor,
            at,
        }),
    }
}

#[tactic(auto, unfolding(crate::specs::Values::method_value))]
pub fn method_value(s: &[u8], at: usize) -> Reading<(CaveatAt, usize)>
    ensures { result ≡ method_value s.now at }
{
    let methods = token_scope::read_methods(s, at)?;
    Ok((CaveatAt::Method { methods }, methods.span.to))
}

#[tactic(auto, unfolding(crate::specs::Values::cidr_value))]
pub fn cidr_value(s: &[u8], at: usize) -> Reading<(CaveatAt, usize)>
    ensures { result ≡ cidr_value s.now at }
{
    let Span { from, to } = cbor_strings::read_run(s, at, major::TEXT, 0, limits::NUMBER_MOST)?;
    let network = token_cidr::read_cidr(&s[from..to]).ok_or(Defect {
        kind: Kind::Cbor,
        at: from,
    })?;
    Ok((CaveatAt::IpCidr { network }, to))
}

#[tactic(auto, unfolding(crate::specs::Maps::rate_value))]
pub fn rate_value(s: &[u8], at: usize) -> Reading<(CaveatAt, usize)>
    ensures { result ≡ rate_value s.now at }
{
    let most = limits::RATE_MOST;
    let (_, at) = cbor_heads::map_with(s, at, 2, 2)?;
    let (burst, at) = cbor_keys::number_field(s, at, Names::Rate, index::RATE_BURST, most)?;
    let (per_s, to) = cbor_keys::number_field(s, at, Names::Rate, index::RATE_PER_S, most)?;
    Ok((CaveatAt::Rate { per_s, burst }, to))
}

#[tactic(auto, unfolding(crate::specs::Values::amnesia_value))]
pub fn amnesia_value(s: &[u8], at: usize) -> Reading<(CaveatAt, usize)>
    ensures { result ≡ amnesia_value s.now at }
{
    let (n, to) = cbor_heads::read_count(
        s,
        at,
        major::SIMPLE,
        major::FALSE,
        major::TRUE,
        Kind::Cbor,
    )?;
    let on = n == major::TRUE;
    Ok((CaveatAt::Amnesia { on }, to))
}

#[tactic(auto, unfolding(crate::specs::Maps::custom_value))]
pub fn custom_value(s: &[u8], at: usize) -> Reading<(CaveatAt, usize)>
    ensures { result ≡ custom_value s.now at }
{
    let (_, at) = cbor_heads::map_with(s, at, 3, 3)?;
    let ns = cbor_keys::name_field(s, at, Names::Custom, index::CUSTOM_NS)?;
    let from = cbor_keys::wanted_key(s, ns.to, Names::Custom, index::CUSTOM_CBOR)?;
    let to = cbor_values::read_value(s, from, limits::DEPTH_MOST)?;
    let name = cbor_keys::name_field(s, to, Names::Custom, index::CUSTOM_NAME)?;
    let value = Span { from, to };
    let custom = CustomAt { ns, value, name };
    Ok((CaveatAt::Custom { custom }, name.to))
}
