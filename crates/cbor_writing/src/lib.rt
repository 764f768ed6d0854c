// CBOR written into room: heads in their shortest form, and strings. A writer takes the room and a place
// in it, and answers the place behind what it wrote; it is told beforehand that the room holds it.
#![tactic(auto)]

ghost use Rattle.std.specs.Prelude.{◌≡◌, ◌++◌, ◌+◌, ◌<◌, ◌≤◌, length, drop};
ghost use Rattle.cbor_heads.specs.Heads.{big, head};
ghost use Rattle.cbor_strings.specs.Strings.{string};
ghost use Rattle.cbor_writing.specs.Placing.{Placed};
ghost use Rattle.cbor_writing.specs.Inner.{Formed};

// The first byte of a head, and how many bytes follow it.
#[derive(Clone, Copy)]
pub struct Form {
    pub first: u8,
    pub k: usize,
}

#[tactic(auto, using(crate::proofs::Forms::forms))]
fn form_of(major: u8, n: u64) -> Form
    requires { major < 8 }
    ensures { Formed major n result.first result.k }
{
    let (low, k) = match n {
        0..=23 => (n as u8, 0),
        24..=0xff => (24, 1),
        0x100..=0xffff => (25, 2),
        0x1_0000..=0xffff_ffff => (26, 4),
        _ => (27, 8),
    };
    Form {
        first: major * 32 + low,
        k,
    }
}

// How long a head is, of whatever major type.
#[tactic(auto, using(crate::proofs::Writers::formed_length))]
pub fn head_length(n: u64) -> usize
    ensures { result ≡ length (head 0 n) }
{
    1 + form_of(0, n).k
}

// The k lowest bytes of n, the highest first, at the front of the room.
#[tactic(auto, using(crate::proofs::BigLoop::put_step, crate::proofs::BigLoop::put_end))]
fn put_big(room: &mut [u8], k: usize, n: u64)
    requires { k ≤ length room.old }
    ensures { room.new ≡ big k n ++ drop k room.old }
{
    let mut v = n;
    for i in (0..k).rev() {
        room[i] = (v % 256) as u8;
        v /= 256;
    }
}

// Room and place stay two parameters, here and below: each contract is on both, and a struct would hide the lent room.
pub fn put_at(room: &mut [u8], at: usize, text: &[u8]) -> usize
    requires { at + length text.now ≤ length room.old }
    ensures { Placed text.now room.old at result room.new }
{
    at + basis::copy(text, &mut room[at..])
}

#[tactic(auto, using(crate::proofs::Writers::heads))]
pub fn put_head(room: &mut [u8], at: usize, major: u8, n: u64) -> usize
    requires { (major < 8) × (at + length (head major n) ≤ length room.old) }
    ensures { Placed (head major n) room.old at result room.new }
{
    let Form { first, k } = form_of(major, n);
    room[at] = first;
    put_big(&mut room[at + 1..], k, n);
    at + 1 + k
}

// A text or a byte string: its head and its content.
pub fn put_string(room: &mut [u8], at: usize, major: u8, content: &[u8]) -> usize
    requires { (major < 8) × (at + length (string major content.now) ≤ length room.old) }
    ensures { Placed (string major content.now) room.old at result room.new }
{
    let p = put_head(room, at, major, content.len() as u64);
    put_at(room, p, content)
}
