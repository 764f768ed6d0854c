// The keyed hash as C calls it: libkeyed_hash.a has this one symbol, and include/bhinorpa.h its declaration.
#![tactic(auto)]

ghost use Rattle.std.specs.Prelude.{◌≡◌};
ghost use Rattle.keyed_hash.specs.KeyedHash.{hashed_of};

use keyed_hash::Hashed;

#[unsafe(no_mangle)]
pub extern "C" fn bhinorpa_keyed_hash(key: &[u8], message: &[u8]) -> Hashed
    ensures { result ≡ hashed_of key.now message.now }
{
    keyed_hash::bhinorpa_keyed_hash(key, message)
}
