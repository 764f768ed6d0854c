// BLAKE3 in keyed mode over a message that lies in two parts, so that a caveat is hashed where it lies,
// behind the words that go before it. The parts are cut, lent and compressed, and never joined.
#![tactic(auto)]

ghost use Rattle.std.specs.Prelude.{◌≡◌, ◌++◌, ◌<◌, ◌≤◌, ◌^◌, length};
ghost use Rattle.hash_chunks.specs.Chunks.{root_flag};
ghost use Rattle.keyed_hash.specs.Tree.{tree_of};
ghost use Rattle.keyed_hash.specs.KeyedHash.{hashed_of, refused_hash};
ghost use Rattle.keyed_hash.specs.Fits.{Fit};

use answers::Answer;
use basis::limits;
use hash_chunks::Message;

const ROOT: u32 = 8;

// The answer's number, and the hash or 32 zero bytes.
#[repr(C)]
#[derive(Clone, Copy)]
pub struct Hashed {
    pub answer: u32,
    pub bytes: [u8; 32],
}

// No code uses it. Only this crate can name it, so that only its proofs can say how the hash is made: the
// law `hash_is` asks for one.
#[derive(Clone, Copy)]
enum Inside {
    Here,
}

// 2^h chunks.
fn chunks(h: u32) -> usize
    requires { h < 3 }
    ensures { result ≡ 2 ^ h }
{
    1 << h
}

// The tree over at most 2^h chunks, the first of which has the number `counter`.
#[tactic(auto, using(crate::proofs::Halves::one_chunk))]
fn tree(key: [u32; 8], m: Message, counter: u64, h: u32, root: u32) -> [u32; 8]
    requires { Fit h (length m) counter root }
    ensures { result ≡ tree_of key h m.entry counter root }
{
    let n = m.len();
    if n <= 1024 {
        return hash_chunks::chunk(key, m, counter, root);
    }
    let k = h - 1;
    let c = chunks(k);
    let l = c * 1024;
    if n <= l {
        return tree(key, m, counter, k, root);
    }
    let left = tree(key, m.part(0, l), counter, k, 0);
    let right = tree(key, m.part(l, n), counter + c as u64, k, 0);
    hash_chunks::parent(key, left, right, root)
}

// The root of a message. Most messages are one chunk, and need no tree.
#[tactic(auto, using(crate::proofs::Halves::one_chunk))]
fn root(key: [u32; 8], m: Message) -> [u32; 8]
    requires { length m ≤ 8192 }
    ensures { result ≡ tree_of key 3 m.entry 0 root_flag }
{
    if m.len() <= 1024 {
        return hash_chunks::chunk(key, m, 0, ROOT);
    }
    tree(key, m, 0, 3, ROOT)
}

#[tactic(auto, unfolding(crate::specs::KeyedHash::refused_hash))]
fn refused() -> Hashed
    ensures { result ≡ refused_hash }
{
    Hashed {
        answer: Answer::HashBad.into(),
        bytes: [0u8; 32],
    }
}

// The keyed hash of head and body as one message.
#[tactic(auto, using(crate::proofs::Hashing::bad_key, crate::proofs::Hashing::too_long, crate::proofs::Hashing::long_head))]
pub fn keyed_hash_joined(key: &[u8], head: &[u8], body: &[u8]) -> Hashed
    ensures { result ≡ hashed_of key.now (head.now ++ body.now) }
{
    if key.len() != limits::KEY_LENGTH {
        return refused();
    }
    let m = Message::new(head, body);
    if limits::MESSAGE_MOST < m.len() {
        return refused();
    }
    let top = root(hash_chunks::words(key), m);
    Hashed {
        answer: Answer::Allow.into(),
        bytes: hash_chunks::bytes(top),
    }
}

// The keyed hash of one message.
pub fn keyed_hash(key: &[u8], message: &[u8]) -> Hashed
    ensures { result ≡ hashed_of key.now message.now }
{
    keyed_hash_joined(key, &[], message)
}

// Under the name that C calls it by; keyed_hash_c exports it.
pub fn bhinorpa_keyed_hash(key: &[u8], message: &[u8]) -> Hashed
    ensures { result ≡ hashed_of key.now message.now }
{
    keyed_hash(key, message)
}
