// Issue: a fresh token for a scope. Any bytes may come; they are judged in document 01's order, and the room gets
// only what is handed out whole.
#![tactic(auto)]

ghost use Rattle.outcome.specs.Decisions.{Carried, Refusing, outcome_of};
ghost use Rattle.issue.specs.Issuing.{issue_with, issue_of};
ghost use Rattle.issue.specs.Inner.{Issuable};

use answers::Answer;
use basis::limits;
use token_writing::Parts;

// With the key, if one was found. 752 bytes are the longest fresh token.
fn issue_with(
    key: &[u8],
    tid: &[u8],
    kid: &[u8],
    scope: &[u8],
    room: &mut [u8],
) -> Result<u32, Answer>
    requires { Issuable key.now tid.now kid.now scope.now }
    ensures carried { Carried (issue_with key.now tid.now kid.now scope.now) room.old (outcome_of result) room.new }
    ensures refusing { Refusing result }
{
    if key.len() != limits::KEY_LENGTH {
        return Err(Answer::KidUnknown);
    }
    let tag = hash_chain::first_link(key, tid, kid, scope);
    let mut bytes = [0u8; 752];
    let parts = Parts {
        scope,
        tag: &tag,
        kid,
        tid,
    };
    let n = token_writing::write_fresh(parts, &mut bytes).unwrap();
    outcome::write_text(&bytes[0..n], room)
}

// The length of the text that stands at the front of the room, or the answer of the first check that fails.
pub fn issue(
    table: &[u8],
    tid: &[u8],
    kid: &[u8],
    scope: &[u8],
    room: &mut [u8],
) -> Result<u32, Answer>
    ensures carried { Carried (issue_of table.now tid.now kid.now scope.now) room.old (outcome_of result) room.new }
    ensures refusing { Refusing result }
{
    if !records_table::table_ok(table) {
        return Err(Answer::TableBad);
    }
    let (_, next) = token_scope::read_scope(scope, 0)?;
    if next != scope.len() {
        return Err(Answer::ParseCbor);
    }
    issue_with(records_table::find(table, tid, kid), tid, kid, scope, room)
}
