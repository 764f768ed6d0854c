// The links of a token's chain. What goes before a scope or a caveat is put together in a small room of its
// own; the scope and the caveat are hashed where they lie, however long they are.
#![tactic(auto)]

ghost use Rattle.std.specs.Prelude.{◌≡◌, ◌++◌};
ghost use Rattle.keyed_hash.specs.KeyedHash.{keyed_hash};
ghost use Rattle.hash_chain.specs.Chain.{first_link, next_link};
ghost use Rattle.hash_chain.specs.Inner.{Macable, FirstOf, NextOf};

// The answer's number is not looked at: with such a key and such lengths the hash never refuses.
fn mac(key: &[u8], head: &[u8], body: &[u8]) -> [u8; 32]
    requires { Macable key.now head.now body.now }
    ensures { result ≡ keyed_hash key.now (head.now ++ body.now) }
{
    let hashed = keyed_hash::keyed_hash_joined(key, head, body);
    hashed.bytes
}

// The link that a chain starts with. 144 bytes hold the domain and two names of 64.
pub fn first_link(key: &[u8], tid: &[u8], kid: &[u8], scope: &[u8]) -> [u8; 32]
    requires { FirstOf key.now tid.now kid.now scope.now }
    ensures { result ≡ first_link key.now tid.now kid.now scope.now }
{
    let mut head = [0u8; 144];
    let a = cbor_writing::put_at(&mut head, 0, b"ron-auth/v1\0init");
    let b = cbor_writing::put_at(&mut head, a, tid);
    let c = cbor_writing::put_at(&mut head, b, kid);
    mac(key, &head[..c], scope)
}

// The link behind another. 50 bytes hold the domain and a link.
pub fn next_link(key: &[u8], link: [u8; 32], caveat: &[u8]) -> [u8; 32]
    requires { NextOf key.now caveat.now }
    ensures { result ≡ next_link key.now link caveat.now }
{
    let mut head = [0u8; 50];
    let a = cbor_writing::put_at(&mut head, 0, b"ron-auth/v1\0caveat");
    let b = cbor_writing::put_at(&mut head, a, &link);
    mac(key, &head[..b], caveat)
}
