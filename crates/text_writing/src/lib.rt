// Bytes to Base64URL text without padding: the text is written whole, or the room stays as it was.
#![tactic(auto)]

ghost use Rattle.std.specs.Prelude.{◌≡◌, [], ◌∷◌, ◌<◌, ◌≤◌, length};
ghost use Rattle.basis.specs.Basis.{over, Written};
ghost use Rattle.text_writing.specs.Base64url.{base64url, letter_of, text_length};

use basis::copy;

static LETTERS: [u8; 64] = *b"ABCDEFGHIJKLMNOPQRSTUVWXYZabcdefghijklmnopqrstuvwxyz0123456789-_";

#[tactic(auto, unfolding(crate::specs::Base64url::letter_of))]
fn letter(v: u8) -> u8
    requires { v < 64 }
    ensures { result ≡ letter_of v }
{
    LETTERS[v as usize]
}

// The four letters of three bytes.
#[tactic(auto, unfolding(crate::specs::Base64url::base64url))]
fn letters(group: [u8; 3]) -> [u8; 4]
    ensures { result ≡ base64url group }
{
    let [x, y, z] = group;
    [
        letter(x / 4),
        letter(x % 4 * 16 + y / 16),
        letter(y % 16 * 4 + z / 64),
        letter(z % 64),
    ]
}

// Letter by letter: with the four copied at once, 4,096 bytes take 42,426 instructions in place of 38,337.
fn write_group(group: &[u8; 3], room: &mut [u8])
    requires { 4 ≤ length room.old }
    ensures { room.new ≡ over (base64url group.now) room.old }
{
    let [a, b, c, d] = letters(*group);
    room[0] = a;
    room[1] = b;
    room[2] = c;
    room[3] = d;
}

// What is left behind the groups of three: zeros stand for the bytes that lack, and the letters of zeros alone go.
#[tactic(auto, unfolding(crate::specs::Base64url::base64url))]
fn write_rest(rest: &[u8], room: &mut [u8])
    requires { (length rest.now < 3) × (text_length (length rest.now) ≤ length room.old) }
    ensures { room.new ≡ over (base64url rest.now) room.old }
{
    match *rest {
        [x] => copy(&letters([x, 0, 0])[..2], room),
        [x, y] => copy(&letters([x, y, 0])[..3], room),
        _ => 0,
    };
}

fn write(bytes: &[u8], room: &mut [u8])
    requires { text_length (length bytes.now) ≤ length room.old }
    ensures { room.new ≡ over (base64url bytes.now) room.old }
{
    let (groups, rest) = bytes.as_chunks::<3>();
    for (k, group) in groups.iter().enumerate() {
        write_group(group, &mut room[k * 4..]);
    }
    write_rest(rest, &mut room[groups.len() * 4..]);
}

// The text of the bytes at the front of the room, the rest of which stays; None where it does not fit.
#[tactic(auto, using(crate::proofs::Writings::text_length_lem))]
pub fn encode(bytes: &[u8], room: &mut [u8]) -> Option<usize>
    ensures { Written (base64url bytes.now) room.old result room.new }
{
    // A letter for each byte, and one more for each group of three that is begun.
    let n = bytes.len() + bytes.len().div_ceil(3);
    if room.len() < n {
        return None;
    }
    write(bytes, room);
    Some(n)
}
