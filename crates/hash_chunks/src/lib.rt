// The chunks and parents of BLAKE3's tree in keyed mode, and words as bytes. A message lies in two parts, which are
// lent block by block and never joined; only a block that reaches into the first is laid together.
#![tactic(auto)]

ghost use Rattle.std.specs.Prelude.{◌≡◌, ◌++◌, ◌<◌, ◌≤◌, ◌+◌, ◌-◌, ◌*◌, length, take, drop};
ghost use Rattle.hash_chunks.specs.Chunks.{bytes_of_words, words_of, blocks_of, chunk_of, parent_of};

use std::marker::Model;

const CHUNK_START: u32 = 1;

const CHUNK_END: u32 = 2;

const PARENT: u32 = 4;

const KEYED: u32 = 16;

// The words of 4 * N bytes, each with its low byte first.
pub fn words<const N: usize>(s: &[u8]) -> [u32; N]
    requires { length s.now ≡ N * 4 }
    ensures { result ≡ words_of N s.now }
{
    let (quads, _) = s.as_chunks::<4>();
    let mut w = [0u32; N];
    for i in 0..N {
        w[i] = u32::from_le_bytes(quads[i]);
    }
    w
}

// The bytes of eight words, each with its low byte first.
pub fn bytes(w: [u32; 8]) -> [u8; 32]
    ensures { result ≡ bytes_of_words w }
{
    let quads = w.map(u32::to_le_bytes);
    let mut out = [0u8; 32];
    basis::copy(quads.as_flattened(), &mut out);
    out
}

// A message, which lies in two parts.
#[derive(Drop)]
pub struct Message<'a> {
    head: &'a [u8],
    body: &'a [u8],
}

// Contracts see the bytes of both parts, one behind the other.
impl<'a> Model for Message<'a> {
    ghost use Rattle.std.specs.Prelude.{List, ℕ, ◌++◌};

    ghost Value = { List ℕ };

    ghost view = { λ m. m.head.now ++ m.body.now };
}

impl<'a> Message<'a> {
    pub fn new(head: &'a [u8], body: &'a [u8]) -> Message<'a>
        ensures { result ≡ head.now ++ body.now }
    {
        Message { head, body }
    }

    pub fn len(&self) -> usize
        ensures { result ≡ length self.now }
    {
        self.head.len() + self.body.len()
    }

    // The bytes from `from` to `to`.
    pub fn part(&self, from: usize, to: usize) -> Message<'a>
        requires { (from ≤ to) × (to ≤ length self.now) }
        ensures { result ≡ take (to - from) (drop from self.now) }
    {
        let i = from.min(self.head.len());
        let j = to.min(self.head.len());
        Message {
            head: &self.head[i..j],
            body: &self.body[from - i..to - j],
        }
    }

    // The words of a block. A whole one in the body is read where it lies; one that is short or reaches into the head
    // goes through 64 bytes of its own.
    fn block(&self) -> [u32; 16]
        requires { length self.now ≤ 64 }
        ensures { result ≡ words_of 16 self.now }
    {
        if self.body.len() == 64 {
            return words(self.body);
        }
        let mut b = [0u8; 64];
        let n = basis::copy(self.head, &mut b);
        basis::copy(self.body, &mut b[n..]);
        words(&b)
    }
}

// A run of blocks, the first with the flag `first`, the last with the flags `last`. Blocks are compressed nowhere
// else: of a single call the compiler makes a part of the loop, and the chaining value stays in registers.
fn run(key: [u32; 8], m: Message, counter: u64, first: u32, last: u32) -> [u32; 8]
    requires { (length m ≤ 1024) × (first ≤ 4) × (last ≤ 10) }
    ensures { result ≡ blocks_of 15 key m.entry counter first last }
{
    let total = m.len();
    let count = total.div_ceil(64).max(1);
    let mut h = key;
    for i in 0..count {
        let at = i * 64;
        let end = total.min(at + 64);
        let start = if i == 0 { first } else { 0 };
        let stop = if i + 1 == count { last } else { 0 };
        let flags = KEYED + start + stop;
        let block = m.part(at, end).block();
        let next = hash_mixing::compress(h, block, counter, (end - at) as u32, flags);
        h = next;
    }
    h
}

#[tactic(auto, unfolding(crate::specs::Chunks::chunk_of))]
pub fn chunk(key: [u32; 8], m: Message, counter: u64, root: u32) -> [u32; 8]
    requires { (length m ≤ 1024) × (root ≤ 8) }
    ensures { result ≡ chunk_of key m.entry counter root }
{
    run(key, m, counter, CHUNK_START, CHUNK_END + root)
}

pub fn parent(key: [u32; 8], left: [u32; 8], right: [u32; 8], root: u32) -> [u32; 8]
    requires { root ≤ 8 }
    ensures { result ≡ parent_of key left right root }
{
    let block = [bytes(left), bytes(right)];
    run(
        key,
        Message::new(&[], block.as_flattened()),
        0,
        PARENT,
        root,
    )
}
