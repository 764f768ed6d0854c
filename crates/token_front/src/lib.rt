// The front of a token: the map's head, the caveats where they lie, and the scope. A defect carries its kind
// and the place of the item at fault.
#![tactic(auto)]

ghost use Rattle.std.specs.Prelude.{◌≡◌, drop};
ghost use Rattle.token_caveat.specs.Reading.{caveat_of};
ghost use Rattle.token_front.specs.Front.{front_of};
ghost use Rattle.token_front.specs.Ends.{caveat_end};

use basis::{Span, limits};
use cbor_heads::defect::{Defect, Reading};
use cbor_keys::{Names, index};
use cbor_values::{Item, ListAt};
use token_caveat_values::CaveatAt;

// Where the caveats and the scope lie.
#[derive(Clone, Copy)]
pub struct FrontAt {
    pub caveats: ListAt,
    pub scope: Span,
}

// The walk over the caveats of a token: the one that begins at a place, in a part lent from there on.
pub fn caveat_at(s: &[u8], at: usize) -> Reading<(CaveatAt, usize)>
    ensures { result ≡ caveat_of (drop at s.now) }
{
    let from = at.min(s.len());
    token_caveat::read_caveat(&s[from..])
}

// What the list of a token's caveats is made of.
struct Caveat;

impl Item for Caveat {
    ghost item = { caveat_end };

    // Its places counted in the token.
    fn end(s: &[u8], at: usize) -> Reading<usize> {
        let (_, next) = caveat_at(s, at).map_err(|d| Defect {
            kind: d.kind,
            at: at + d.at,
        })?;
        Ok(at + next)
    }
}

#[tactic(auto, unfolding(crate::specs::Front::front_of))]
pub fn read_front(s: &[u8]) -> Reading<FrontAt>
    ensures { result ≡ front_of s.now }
{
    let (_, at) = cbor_heads::map_with(s, 0, 6, 6)?;
    let at = cbor_keys::wanted_key(s, at, Names::Token, index::TOKEN_C)?;
    let (count, from) = cbor_heads::array_up_to(s, at, limits::CAVEATS_MOST)?;
    let to = cbor_values::items_end::<Caveat>(s, from, count)?;
    let at = cbor_keys::wanted_key(s, to, Names::Token, index::TOKEN_R)?;
    let (_, next) = token_scope::read_scope(s, at)?;
    Ok(FrontAt {
        caveats: ListAt {
            count,
            span: Span { from, to },
        },
        scope: Span { from: at, to: next },
    })
}
