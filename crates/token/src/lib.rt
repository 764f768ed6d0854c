// Tokens: what they are, how they are written and how they are read. A token is read whole from its first
// byte to its last; each caveat is read where it lies. A defect carries its kind and the place
// of the item at fault.
#![tactic(auto)]

ghost use Rattle.std.specs.Prelude.{◌≡◌};
ghost use Rattle.token.specs.Reading.{token_of};

use basis::Span;
use cbor_heads::defect::Reading;
use cbor_values::ListAt;
use token_back::BackAt;
use token_front::FrontAt;

// Where the parts of a token lie.
#[derive(Clone, Copy)]
pub struct TokenAt {
    pub caveats: ListAt,
    pub scope: Span,
    pub tag: Span,
    pub kid: Span,
    pub tid: Span,
}

#[tactic(auto, unfolding(crate::specs::Reading::token_of))]
pub fn read_token(s: &[u8]) -> Reading<TokenAt>
    ensures { result ≡ token_of s.now }
{
    let FrontAt { caveats, scope } = token_front::read_front(s)?;
    let BackAt { tag, kid, tid } = token_back::read_back(s, scope.to)?;
    Ok(TokenAt {
        caveats,
        scope,
        tag,
        kid,
        tid,
    })
}
