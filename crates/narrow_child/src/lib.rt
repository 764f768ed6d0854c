// The child of a token that may be narrowed: the added caveat is read, and the parent's parts are written again with
// it behind their caveats and the next link as their tag.
#![tactic(auto)]

ghost use Rattle.std.specs.Prelude.{◌≡◌, ◌+◌, length};
ghost use Rattle.answers.specs.Answers.{number_of};
ghost use Rattle.cbor_heads.specs.Defects.{kind_number};
ghost use Rattle.basis.specs.Limits.{key_length};
ghost use Rattle.token_caveat.specs.Reading.{caveat_of};
ghost use Rattle.outcome.specs.Decisions.{Carried, Refusing, outcome_of};
ghost use Rattle.narrow_child.specs.Child.{child_of, caveat_added};

use answers::Answer;
use basis::limits;
use cbor_heads::defect::Kind;
use token::TokenAt;
use token_writing::Parts;

// A caveat that is read: the child, if its parent is not full and it is not too long. A caveat of over 4,096
// bytes is not hashed, since no child of it is short enough.
fn write_child(
    key: &[u8],
    link: [u8; 32],
    s: &[u8],
    parent: TokenAt,
    caveat: &[u8],
    room: &mut [u8],
) -> Result<u32, Answer>
    requires { length key.now ≡ key_length }
    ensures carried { Carried (child_of key.now link s.now parent caveat.now) room.old (outcome_of result) room.new }
    ensures refusing { Refusing result }
{
    let count = parent.caveats.count;
    let span = parent.caveats.span;
    let scope = parent.scope;
    let kid = parent.kid;
    let tid = parent.tid;
    if limits::CAVEATS_MOST <= count {
        return Err(Answer::CavFull);
    }
    if limits::TOKEN_MOST < caveat.len() {
        return Err(Answer::SizeFull);
    }
    let tag = hash_chain::next_link(key, link, caveat);
    let caveats = basis::lend(s, span);
    let mut bytes = [0u8; 4096];
    let parts = Parts {
        scope: basis::lend(s, scope),
        tag: &tag,
        kid: basis::lend(s, kid),
        tid: basis::lend(s, tid),
    };
    let Some(n) = token_writing::write_token(count + 1, caveats, caveat, parts, &mut bytes) else {
        return Err(Answer::SizeFull);
    };
    outcome::write_text(&bytes[0..n], room)
}

// What a defect of the added caveat is answered with: another answer than the same defect of the token.
fn added(kind: Kind) -> Answer
    ensures { number_of result ≡ kind_number kind + 27 }
{
    match kind {
        Kind::Cbor => Answer::CavCbor,
        Kind::Bounds => Answer::CavBounds,
        Kind::Unknown => Answer::CavUnknown,
    }
}

// The caveat's reading, then the child.
pub fn add_caveat(
    key: &[u8],
    link: [u8; 32],
    s: &[u8],
    parent: TokenAt,
    caveat: &[u8],
    room: &mut [u8],
) -> Result<u32, Answer>
    requires { length key.now ≡ key_length }
    ensures carried { Carried (caveat_added key.now link s.now parent caveat.now (caveat_of caveat.now)) room.old (outcome_of result) room.new }
    ensures refusing { Refusing result }
{
    match token_caveat::read_caveat(caveat) {
        Err(defect) => Err(added(defect.kind)),
        Ok((_, next)) => {
            if next != caveat.len() {
                return Err(Answer::CavCbor);
            }
            write_child(key, link, s, parent, caveat, room)
        }
    }
}
