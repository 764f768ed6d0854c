// Narrow: a child with one caveat more, of a parent that is read, found and rightly tagged. Any bytes may come; they
// are judged in document 01's order, and the room gets only what is handed out whole.
#![tactic(auto)]

ghost use Rattle.std.specs.Prelude.{◌≤◌, length};
ghost use Rattle.basis.specs.Limits.{token_most};
ghost use Rattle.verify_walk.specs.Ready.{Ready};
ghost use Rattle.outcome.specs.Decisions.{Carried, Refusing, outcome_of};
ghost use Rattle.narrow.specs.Narrowing.{tag_narrowed, bytes_narrowed, text_narrowed, narrow_of};

use answers::Answer;
use basis::limits;
use token::TokenAt;

// With the key: the tag first, before a byte of the caveat is looked at.
fn narrow_with(
    key: &[u8],
    s: &[u8],
    parent: TokenAt,
    caveat: &[u8],
    room: &mut [u8],
) -> Result<u32, Answer>
    requires { Ready key.now s.now parent }
    ensures carried { Carried (tag_narrowed key.now s.now parent caveat.now) room.old (outcome_of result) room.new }
    ensures refusing { Refusing result }
{
    let caveats = parent.caveats;
    let tag = parent.tag;
    let first = verify_walk::link_first(key, s, parent);
    let link = verify_walk::links(s, caveats, key, first);
    if !verify_walk::same_tag(link, basis::lend(s, tag)) {
        return Err(Answer::MacMismatch);
    }
    narrow_child::add_caveat(key, link, s, parent, caveat, room)
}

fn narrow_bytes(table: &[u8], s: &[u8], caveat: &[u8], room: &mut [u8]) -> Result<u32, Answer>
    requires { length s.now ≤ token_most }
    ensures carried { Carried (bytes_narrowed table.now s.now caveat.now) room.old (outcome_of result) room.new }
    ensures refusing { Refusing result }
{
    let token = token::read_token(s)?;
    let tid = token.tid;
    let kid = token.kid;
    let key = records_table::find(table, basis::lend(s, tid), basis::lend(s, kid));
    if key.len() != limits::KEY_LENGTH {
        return Err(Answer::KidUnknown);
    }
    narrow_with(key, s, token, caveat, room)
}

fn narrow_text(table: &[u8], text: &[u8], caveat: &[u8], room: &mut [u8]) -> Result<u32, Answer>
    ensures carried { Carried (text_narrowed table.now text.now caveat.now) room.old (outcome_of result) room.new }
    ensures refusing { Refusing result }
{
    if limits::TEXT_MOST < text.len() {
        return Err(Answer::ParseBounds);
    }
    let mut bytes: [u8; 4096] = [0; 4096];
    let n = text_reading::decode(text, &mut bytes)?;
    narrow_bytes(table, &bytes[0..n], caveat, room)
}

// The length of the child's text at the front of the room, or the answer of the first check that fails.
pub fn narrow(table: &[u8], token: &[u8], caveat: &[u8], room: &mut [u8]) -> Result<u32, Answer>
    ensures carried { Carried (narrow_of table.now token.now caveat.now) room.old (outcome_of result) room.new }
    ensures refusing { Refusing result }
{
    if !records_table::table_ok(table) {
        return Err(Answer::TableBad);
    }
    narrow_text(table, token, caveat, room)
}
