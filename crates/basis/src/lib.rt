// What every crate needs of bytes and lent room, and the words that the definitions share.
#![tactic(auto)]

ghost use Rattle.std.specs.Prelude.{◌≡◌, ◌++◌, min, length, take, drop};
ghost use Rattle.basis.specs.Basis.{between, behind, part_place, Written};

pub mod limits;

// A part of a slice, by where it begins and where it ends.
#[derive(Clone, Copy)]
pub struct Span {
    pub from: usize,
    pub to: usize,
}

// The front of `from` over the front of `to`, as far as both reach, and how many bytes that is. No `copy_from_slice`:
// what C links asks for memcpy and memset alone (tools/archives), and that one calls memmove.
pub fn copy(from: &[u8], to: &mut [u8]) -> usize
    ensures count { result ≡ min (length from.now) (length to.old) }
    ensures content { to.new ≡ take result from.now ++ drop result to.old }
{
    let n = from.len().min(to.len());
    for i in 0..n {
        to[i] = from[i];
    }
    n
}

// Writes a text at the front of the room and says its length, or writes nothing where the room is too short.
pub fn put(text: &[u8], room: &mut [u8]) -> Option<usize>
    ensures { Written text.now room.old result room.new }
{
    if room.len() < text.len() {
        return None;
    }
    Some(copy(text, room))
}

// The bytes of a part, as far as there are any: for places that were told by someone else.
pub fn lend<'a>(s: &'a [u8], span: Span) -> &'a [u8]
    ensures result_value { result.now ≡ between s.now span }
    ensures ref_ptr_value { result.ref_ptr ≡ behind s.entry.ref_ptr (part_place s.now span) }
{
    let from = span.from;
    let end = span.to.min(s.len());
    if end < from {
        return &s[0..0];
    }
    &s[from..end]
}
