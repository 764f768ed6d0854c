// The entry points as C calls them: libbhinorpa.a has these three symbols, and include/bhinorpa.h their declarations.
// Each hands its arguments on to the function of the same name, and promises what that one does.
#![tactic(auto)]

ghost use Rattle.std.specs.Prelude.{◌≡◌};
ghost use Rattle.verify.specs.Verifying.{verify_of};
ghost use Rattle.outcome.specs.Decisions.{Carried};
ghost use Rattle.issue.specs.Issuing.{issue_of};
ghost use Rattle.narrow.specs.Narrowing.{narrow_of};

use outcome::Outcome;

#[unsafe(no_mangle)]
pub extern "C" fn bhinorpa_verify(table: &[u8], request: &[u8], token: &[u8]) -> u32
    ensures { result ≡ verify_of table.now request.now token.now }
{
    bhinorpa::bhinorpa_verify(table, request, token)
}

#[unsafe(no_mangle)]
pub extern "C" fn bhinorpa_issue(
    table: &[u8],
    tid: &[u8],
    kid: &[u8],
    scope: &[u8],
    room: &mut [u8],
) -> Outcome
    ensures { Carried (issue_of table.now tid.now kid.now scope.now) room.old result room.new }
{
    bhinorpa::bhinorpa_issue(table, tid, kid, scope, room)
}

#[unsafe(no_mangle)]
pub extern "C" fn bhinorpa_narrow(
    table: &[u8],
    token: &[u8],
    caveat: &[u8],
    room: &mut [u8],
) -> Outcome
    ensures { Carried (narrow_of table.now token.now caveat.now) room.old result room.new }
{
    bhinorpa::bhinorpa_narrow(table, token, caveat, room)
}
