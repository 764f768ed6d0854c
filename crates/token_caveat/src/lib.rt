// Caveats: what they are, how they are written and how they are read. A reader is lent a part that begins with the
// caveat's first byte, whatever stands behind it; a defect carries its kind and the place of the item at fault.
#![tactic(auto)]

ghost use Rattle.std.specs.Prelude.{◌≡◌};
ghost use Rattle.basis.specs.Limits.{number_most};
ghost use Rattle.cbor_heads.specs.Counts.{number_up_to};
ghost use Rattle.token_caveat.specs.Reading.{caveat_of};
ghost use Rattle.token_caveat.specs.Values.{value_at};

use basis::limits;
use cbor_heads::defect::{Defect, Kind, Reading};
use cbor_keys::{Names, index};
use cbor_strings::Class;
use token_caveat_values::CaveatAt;

// Any number, and the place behind it.
fn number(s: &[u8], at: usize) -> Reading<(u64, usize)>
    ensures { result ≡ number_up_to number_most s.now at }
{
    cbor_heads::number_up_to(s, at, limits::NUMBER_MOST)
}

// The value of a caveat by its t, which is told by its index among the names.
#[tactic(auto, unfolding(crate::specs::Values::value_at))]
fn value_at(s: &[u8], at: usize, t: u32) -> Reading<(CaveatAt, usize)>
    ensures { result ≡ value_at s.now t at }
{
    match t {
        index::T_EXP => number(s, at).map(|(n, to)| (CaveatAt::Exp { n }, to)),
        index::T_NBF => number(s, at).map(|(n, to)| (CaveatAt::Nbf { n }, to)),
        index::T_AUD => {
            let span = cbor_strings::read_string(s, at, Class::Printable, 1, limits::AUD_MOST)?;
            Ok((CaveatAt::Aud { span }, span.to))
        }
        index::T_METHOD => token_caveat_values::method_value(s, at),
        index::T_PATH_PREFIX => {
            let span = cbor_strings::read_string(s, at, Class::Path, 1, limits::PATH_MOST)?;
            Ok((CaveatAt::PathPrefix { span }, span.to))
        }
        index::T_IP_CIDR => token_caveat_values::cidr_value(s, at),
        index::T_BYTES_LE => number(s, at).map(|(n, to)| (CaveatAt::BytesLe { n }, to)),
        index::T_RATE => token_caveat_values::rate_value(s, at),
        index::T_TENANT => {
            let span = cbor_strings::read_string(s, at, Class::Name, 1, limits::NAME_MOST)?;
            Ok((CaveatAt::Tenant { span }, span.to))
        }
        index::T_AMNESIA => token_caveat_values::amnesia_value(s, at),
        index::T_GOV_POLICY_DIGEST => token_caveat_values::digest_value(s, at),
        index::T_CUSTOM => token_caveat_values::custom_value(s, at),
        _ => Err(Defect {
            kind: Kind::Unknown,
            at,
        }),
    }
}

#[tactic(auto, unfolding(crate::specs::Reading::caveat_of))]
pub fn read_caveat(s: &[u8]) -> Reading<(CaveatAt, usize)>
    ensures { result ≡ caveat_of s.now }
{
    let (_, at) = cbor_heads::map_with(s, 0, 2, 2)?;
    let at = cbor_keys::wanted_key(s, at, Names::Caveat, index::CAVEAT_T)?;
    let (t, at) = cbor_keys::key_at(s, at, Names::T)?;
    let at = cbor_keys::wanted_key(s, at, Names::Caveat, index::CAVEAT_V)?;
    value_at(s, at, t)
}
