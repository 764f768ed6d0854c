// Key tables: rows of tid, kid and key, strictly ascending. The whole table is judged on every call, and
// the key is handed back as a part of the table.
#![tactic(auto)]

ghost use Rattle.std.specs.Prelude.{◌≡◌};
ghost use Rattle.basis.specs.Basis.{between, behind};
ghost use Rattle.basis.specs.Limits.{rows_most};
ghost use Rattle.records_table.specs.Reading.{read_row, table_ok, key_from};
ghost use Rattle.records_table.specs.Reading.{find_from, place_from, lookup_of, lookup_place};

use basis::{Span, limits};
use cbor_strings::Class;

// The ids of a row: it is found by them, and rows ascend by tid, then by kid. std's order of byte strings is that of
// the rows: bytewise, and a string comes before any longer one that begins with it.
#[derive(Clone, Copy, PartialEq, Eq, PartialOrd, Ord)]
struct Ids<'a> {
    tid: &'a [u8],
    kid: &'a [u8],
}

// Where the parts of a row lie; the row ends where its key does.
#[derive(Clone, Copy)]
pub struct RowAt {
    pub tid: Span,
    pub kid: Span,
    pub key: Span,
}

impl RowAt {
    // Its ids, in the table where it lies.
    fn ids<'a>(self, table: &'a [u8]) -> Ids<'a>
        ensures tid { result.tid.now ≡ between table.now self.tid }
        ensures kid { result.kid.now ≡ between table.now self.kid }
    {
        Ids {
            tid: basis::lend(table, self.tid),
            kid: basis::lend(table, self.kid),
        }
    }
}

#[tactic(auto, unfolding(crate::specs::Reading::read_row))]
fn row_at(s: &[u8], at: usize) -> Option<RowAt>
    ensures { result ≡ read_row s.now at }
{
    let record = records::record_at(s, at)?;
    if record.kind != limits::ROW_KIND {
        return None;
    }
    let Span { from, to } = record.body;
    let tid = records::text_at(s, from, 1, Class::Name, 1, limits::NAME_MOST)?;
    let kid = records::text_at(s, tid.to, 1, Class::Name, 1, limits::NAME_MOST)?;
    if to < kid.to || to - kid.to != limits::KEY_LENGTH {
        return None;
    }
    let key = Span { from: kid.to, to };
    Some(RowAt { tid, kid, key })
}

#[tactic(auto, using(crate::proofs::Walks::walk), unfolding(crate::specs::Reading::ok_from, crate::specs::Reading::row_after, crate::specs::Reading::table_ok))]
pub fn table_ok(s: &[u8]) -> bool
    ensures { result ≡ table_ok s.now }
{
    // before the first row stand empty ids, which come before all others
    let mut last = Ids {
        tid: &s[..0],
        kid: &s[..0],
    };
    let mut at: usize = 0;
    for _row in 0..limits::ROWS_MOST {
        if at == s.len() {
            return true;
        }
        let Some(row) = row_at(s, at) else {
            return false;
        };
        let ids = row.ids(s);
        // `cmp`, for `last >= ids` goes byte by byte: it was tried, and verify has 2 in 100 instructions more
        if last.cmp(&ids).is_ge() {
            return false;
        }
        last = ids;
        at = row.key.to;
    }
    at == s.len()
}

// Where the key of the row with these ids lies.
#[tactic(auto, using(crate::proofs::Walks::walk), unfolding(crate::specs::Reading::key_from, crate::specs::Order::same_ids))]
fn key_at(table: &[u8], tid: &[u8], kid: &[u8]) -> Option<Span>
    ensures { result ≡ key_from rows_most table.now tid.now kid.now 0 }
{
    let wanted = Ids { tid, kid };
    let mut p: usize = 0;
    for _ in 0..limits::ROWS_MOST {
        let row = row_at(table, p)?;
        if row.ids(table) == wanted {
            return Some(row.key);
        }
        p = row.key.to;
    }
    None
}

// The key of the row with these ids, as it lies in a table that was judged before. A slice and no Option, in both:
// `find_from` and `lookup_of`, which the demands' theorems name, say no bytes where there is no such row.
#[tactic(auto, using(crate::proofs::Walks::key_bytes, crate::proofs::Walks::key_place))]
pub fn find<'a>(table: &'a [u8], tid: &[u8], kid: &[u8]) -> &'a [u8]
    ensures result_value { result.now ≡ find_from rows_most table.now tid.now kid.now 0 }
    ensures ref_ptr_value { result.ref_ptr ≡ behind table.entry.ref_ptr (place_from rows_most table.now tid.now kid.now 0) }
{
    let nowhere = Span { from: 0, to: 0 };
    let key = key_at(table, tid, kid).unwrap_or(nowhere);
    basis::lend(table, key)
}

#[tactic(auto, unfolding(crate::specs::Reading::lookup_of, crate::specs::Reading::lookup_place))]
pub fn lookup<'a>(table: &'a [u8], tid: &[u8], kid: &[u8]) -> &'a [u8]
    ensures result_value { result.now ≡ lookup_of table.now tid.now kid.now }
    ensures ref_ptr_value { result.ref_ptr ≡ behind table.entry.ref_ptr (lookup_place table.now tid.now kid.now) }
{
    if table_ok(table) {
        return find(table, tid, kid);
    }
    &table[0..0]
}
