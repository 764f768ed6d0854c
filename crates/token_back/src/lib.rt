// The back of a token: tag, version, kid and tid, and nothing behind them. A defect carries its kind and
// the place of the item at fault.
#![tactic(auto)]

ghost use Rattle.std.specs.Prelude.{◌≡◌};
ghost use Rattle.cbor_heads.specs.Defects.{defect};
ghost use Rattle.cbor_heads.specs.declared.defect.Kind.TheVariants.{Cbor};
ghost use Rattle.token_back.specs.Back.{tag_field, version_field, back_of};

use basis::{Span, limits};
use cbor_heads::defect::{Defect, Kind, Reading};
use cbor_heads::major;
use cbor_keys::{Names, index};

// Where tag, kid and tid lie.
#[derive(Clone, Copy)]
pub struct BackAt {
    pub tag: Span,
    pub kid: Span,
    pub tid: Span,
}

// A defect of form.
fn form(at: usize) -> Defect
    ensures { result ≡ defect Cbor at }
{
    Defect {
        kind: Kind::Cbor,
        at,
    }
}

// The tag has no range of its own: a wrong length is a defect of form like any other.
#[tactic(auto, unfolding(crate::specs::Values::tag_at, crate::specs::Back::tag_field))]
fn tag_field(s: &[u8], at: usize) -> Reading<Span>
    ensures { result ≡ tag_field s.now at }
{
    let next = cbor_keys::wanted_key(s, at, Names::Token, index::TOKEN_S)?;
    cbor_strings::read_run(
        s,
        next,
        major::BYTES,
        limits::TAG_LENGTH,
        limits::TAG_LENGTH,
    )
    .map_err(|d| form(d.at))
}

#[tactic(auto, unfolding(crate::specs::Values::version_at, crate::specs::Back::version_field))]
fn version_field(s: &[u8], at: usize) -> Reading<usize>
    ensures { result ≡ version_field s.now at }
{
    let from = cbor_keys::wanted_key(s, at, Names::Token, index::TOKEN_V)?;
    let (version, next) = cbor_heads::number_up_to(s, from, limits::NUMBER_MOST)?;
    if version == limits::TOKEN_VERSION {
        return Ok(next);
    }
    Err(Defect {
        kind: Kind::Unknown,
        at: from,
    })
}

#[tactic(auto, unfolding(crate::specs::Back::back_of))]
pub fn read_back(s: &[u8], at: usize) -> Reading<BackAt>
    ensures { result ≡ back_of s.now at }
{
    let tag = tag_field(s, at)?;
    let next = version_field(s, tag.to)?;
    let kid = cbor_keys::name_field(s, next, Names::Token, index::TOKEN_KID)?;
    let tid = cbor_keys::name_field(s, kid.to, Names::Token, index::TOKEN_TID)?;
    if tid.to == s.len() {
        return Ok(BackAt { tag, kid, tid });
    }
    Err(form(tid.to))
}
