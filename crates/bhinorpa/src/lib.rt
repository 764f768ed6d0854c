// The entry points that the firmware calls. Each takes any bytes and asks nothing of them; what they promise
// is proved to be what the demands say (specs/Demands.antt). C takes numbers: a result becomes them here.
#![tactic(auto)]

ghost use Rattle.std.specs.Prelude.{◌≡◌};
ghost use Rattle.verify.specs.Verifying.{verify_of};
ghost use Rattle.outcome.specs.Decisions.{Carried};
ghost use Rattle.issue.specs.Issuing.{issue_of};
ghost use Rattle.narrow.specs.Narrowing.{narrow_of};

use outcome::Outcome;

// Whether a token is allowed: 0, or the number of the first check that fails.
pub fn bhinorpa_verify(table: &[u8], request: &[u8], token: &[u8]) -> u32
    ensures { result ≡ verify_of table.now request.now token.now }
{
    verify::verify(table, request, token).into()
}

// Writes the text of a fresh token, without caveats, into the room.
pub fn bhinorpa_issue(
    table: &[u8],
    tid: &[u8],
    kid: &[u8],
    scope: &[u8],
    room: &mut [u8],
) -> Outcome
    ensures { Carried (issue_of table.now tid.now kid.now scope.now) room.old result room.new }
{
    issue::issue(table, tid, kid, scope, room).into()
}

// Writes the text of a token with one caveat more into the room.
pub fn bhinorpa_narrow(table: &[u8], token: &[u8], caveat: &[u8], room: &mut [u8]) -> Outcome
    ensures { Carried (narrow_of table.now token.now caveat.now) room.old result room.new }
{
    narrow::narrow(table, token, caveat, room).into()
}
