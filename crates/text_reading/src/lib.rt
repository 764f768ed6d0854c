// Base64URL text without padding to bytes. A text is judged before a byte of it is written, so a refusal leaves
// the room as it was.
#![tactic(auto)]

ghost use Rattle.std.specs.Prelude.{◌≡◌, [], ◌∷◌, ◌+◌, ◌*◌, ◌/◌, ◌%◌, ◌<◌, ◌≤◌, length, position, None};
ghost use Rattle.std.specs.List.{list_any};
ghost use Rattle.basis.specs.Basis.{over};
ghost use Rattle.text_reading.specs.Reading.{digit_of, is_bad, bad_at, unused_of, judged_of, byte_length, bytes_of};
ghost use Rattle.text_reading.specs.Reading.{undecoded_answer, Filled};

use answers::Answer;
use basis::copy;

// Why a text is not decoded: it stands for no bytes, by its first fault, or for more than the room holds.
#[derive(Clone, Copy, Debug, PartialEq, Eq)]
pub enum Undecoded {
    Bad { at: usize },
    Short,
}

// A text too long for its room is one over its limit; the place is not told by document 01's answers.
impl From<Undecoded> for Answer {
    ghost from_gives = { λ undecoded answer. answer ≡ undecoded_answer undecoded };

    fn from(undecoded: Undecoded) -> Answer {
        match undecoded {
            Undecoded::Bad { .. } => Answer::ParseB64,
            Undecoded::Short => Answer::ParseBounds,
        }
    }
}

// The six bits of each character, and 64 for one that is no letter: as Options they are no plainer, and twice as long.
static DIGITS: [u8; 256] = *b"\x40\x40\x40\x40\x40\x40\x40\x40\x40\x40\x40\x40\x40\x40\x40\x40\
                             \x40\x40\x40\x40\x40\x40\x40\x40\x40\x40\x40\x40\x40\x40\x40\x40\
                             \x40\x40\x40\x40\x40\x40\x40\x40\x40\x40\x40\x40\x40\x3e\x40\x40\
                             \x34\x35\x36\x37\x38\x39\x3a\x3b\x3c\x3d\x40\x40\x40\x40\x40\x40\
                             \x40\x00\x01\x02\x03\x04\x05\x06\x07\x08\x09\x0a\x0b\x0c\x0d\x0e\
                             \x0f\x10\x11\x12\x13\x14\x15\x16\x17\x18\x19\x40\x40\x40\x40\x3f\
                             \x40\x1a\x1b\x1c\x1d\x1e\x1f\x20\x21\x22\x23\x24\x25\x26\x27\x28\
                             \x29\x2a\x2b\x2c\x2d\x2e\x2f\x30\x31\x32\x33\x40\x40\x40\x40\x40\
                             \x40\x40\x40\x40\x40\x40\x40\x40\x40\x40\x40\x40\x40\x40\x40\x40\
                             \x40\x40\x40\x40\x40\x40\x40\x40\x40\x40\x40\x40\x40\x40\x40\x40\
                             \x40\x40\x40\x40\x40\x40\x40\x40\x40\x40\x40\x40\x40\x40\x40\x40\
                             \x40\x40\x40\x40\x40\x40\x40\x40\x40\x40\x40\x40\x40\x40\x40\x40\
                             \x40\x40\x40\x40\x40\x40\x40\x40\x40\x40\x40\x40\x40\x40\x40\x40\
                             \x40\x40\x40\x40\x40\x40\x40\x40\x40\x40\x40\x40\x40\x40\x40\x40\
                             \x40\x40\x40\x40\x40\x40\x40\x40\x40\x40\x40\x40\x40\x40\x40\x40\
                             \x40\x40\x40\x40\x40\x40\x40\x40\x40\x40\x40\x40\x40\x40\x40\x40";

#[tactic(auto, using(crate::proofs::Letters::table_is))]
fn digit(c: u8) -> u8
    ensures { result ≡ digit_of c }
{
    DIGITS[c as usize]
}

fn is_bad(c: u8) -> bool
    ensures { result ≡ is_bad c }
{
    64 <= digit(c)
}

// One by one.
fn bad_in(text: &[u8]) -> Option<usize>
    ensures { result ≡ bad_at text.now }
{
    text.iter().position(|&c| is_bad(c))
}

fn any_bad(group: &[u8; 16]) -> bool
    ensures { result ≡ list_any is_bad group.now }
{
    group.iter().any(|&c| is_bad(c))
}

fn bad_group(groups: &[[u8; 16]]) -> Option<usize>
    ensures { result ≡ position (λ g. list_any is_bad g) groups.now }
{
    groups.iter().position(any_bad)
}

// Sixteen at a time as far as all are letters, which the compiler unrolls: one by one takes twice the instructions.
fn bad_at(text: &[u8]) -> Option<usize>
    ensures { result ≡ bad_at text.now }
{
    let (groups, _) = text.as_chunks::<16>();
    let passed = bad_group(groups).unwrap_or(groups.len()) * 16;
    let at = bad_in(&text[passed..])?;
    Some(passed + at)
}

// The unused bits of what is left behind the groups of four.
#[tactic(auto, unfolding(crate::specs::Reading::unused_of))]
fn unused(rest: &[u8]) -> u8
    requires { length rest.now < 4 }
    ensures { result ≡ unused_of rest.now }
{
    match *rest {
        [_, b] => digit(b) % 16,
        [_, _, c] => digit(c) % 4,
        _ => 0,
    }
}

// How many bytes a text stands for, or where it is first at fault.
#[tactic(auto, using(crate::proofs::Judging::unused_bits), unfolding(crate::specs::Reading::judged_of))]
pub fn judge(text: &[u8]) -> Result<usize, usize>
    ensures { result ≡ judged_of text.now }
{
    if let Some(at) = bad_at(text) {
        return Err(at);
    }
    let n = text.len();
    let (_, rest) = text.as_chunks::<4>();
    if rest.len() == 1 {
        return Err(n);
    }
    if unused(rest) != 0 {
        return Err(n - 1);
    }
    Ok(n / 4 * 3 + n % 4 * 3 / 4)
}

// The three bytes of the six bits of four letters.
fn joined(a: u8, b: u8, c: u8, d: u8) -> [u8; 3]
    requires { (a < 64) × (b < 64) × (c < 64) × (d < 64) }
    ensures { result ≡ (a * 4 + b / 16) ∷ (b % 16 * 16 + c / 4) ∷ (c % 4 * 64 + d) ∷ [] }
{
    [a * 4 + b / 16, b % 16 * 16 + c / 4, c % 4 * 64 + d]
}

#[tactic(auto, using(crate::proofs::Judging::letter_at), unfolding(crate::specs::Reading::bytes_of))]
fn fill_group(group: &[u8; 4], room: &mut [u8])
    requires letters { bad_at group.now ≡ None }
    requires enough { 3 ≤ length room.old }
    ensures { room.new ≡ over (bytes_of group.now) room.old }
{
    let [a, b, c, d] = *group;
    copy(
        &joined(digit(a), digit(b), digit(c), digit(d)),
        &mut room[..3],
    );
}

// What is left behind the groups of four: zeros stand for the letters that lack, and the bytes of zeros alone go.
#[tactic(auto, using(crate::proofs::Judging::letter_at), unfolding(crate::specs::Reading::bytes_of))]
fn fill_rest(rest: &[u8], room: &mut [u8])
    requires letters { bad_at rest.now ≡ None }
    requires few { length rest.now < 4 }
    requires enough { byte_length (length rest.now) ≤ length room.old }
    ensures { room.new ≡ over (bytes_of rest.now) room.old }
{
    match *rest {
        [a, b] => copy(&joined(digit(a), digit(b), 0, 0)[..1], room),
        [a, b, c] => copy(&joined(digit(a), digit(b), digit(c), 0)[..2], room),
        _ => 0,
    };
}

// As text_writing's `write`, from fours to threes: one function of both, with two closures, is no plainer.
fn fill(text: &[u8], room: &mut [u8])
    requires letters { bad_at text.now ≡ None }
    requires enough { byte_length (length text.now) ≤ length room.old }
    ensures { room.new ≡ over (bytes_of text.now) room.old }
{
    let (groups, rest) = text.as_chunks::<4>();
    for (k, group) in groups.iter().enumerate() {
        fill_group(group, &mut room[k * 3..]);
    }
    fill_rest(rest, &mut room[groups.len() * 3..]);
}

// The bytes of a text at the front of the room, the rest of which stays.
#[tactic(auto, unfolding(crate::specs::Reading::decoded_of, crate::specs::Reading::left_of))]
pub fn decode(text: &[u8], room: &mut [u8]) -> Result<usize, Undecoded>
    ensures { Filled text.now room.old result room.new }
{
    let n = judge(text).map_err(|at| Undecoded::Bad { at })?;
    if room.len() < n {
        return Err(Undecoded::Short);
    }
    fill(text, room);
    Ok(n)
}
