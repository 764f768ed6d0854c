// What the host tests call beyond the product's entry points. Nothing of the product stands on it.
#![tactic(auto)]

ghost use Rattle.std.specs.Prelude.{◌≡◌, ◌++◌};
ghost use Rattle.keyed_hash.specs.KeyedHash.{hashed_of};
ghost use Rattle.cbor_heads.specs.Reading.{read_head};
ghost use Rattle.cbor_strings.specs.Reading.{read_run, read_string};
ghost use Rattle.cbor_values.specs.Reading.{value_of};
ghost use Rattle.token_cidr.specs.Bits.{agree_of};
ghost use Rattle.token_cidr.specs.Reading.{cidr_of};
ghost use Rattle.cbor_heads.specs.Defects.{kind_number};
ghost use Rattle.probe.specs.Probes.{decoded_probe, encoded_probe, head_probe, content_probe, item_probe, class_at};
ghost use Rattle.probe.specs.Probes.{told, cidr_probe, bool_probe};
ghost use Rattle.probe.specs.Probes.{DecodeProbed, EncodeProbed};

use answers::Answer;
use basis::Span;
use cbor_heads::Head;
use cbor_heads::defect::{Defect, Reading};
use cbor_strings::Class;
use keyed_hash::Hashed;
use text_reading::Undecoded;
use token_cidr::Network;

// An answer as numbers: a host cannot take an enum apart by Rattle's layout.
#[repr(C)]
#[derive(Clone, Copy)]
pub struct Probed {
    pub kind: u32,
    pub first: u64,
    pub second: u64,
    pub third: u64,
}

#[unsafe(no_mangle)]
pub extern "C" fn probe_keyed_hash_joined(key: &[u8], head: &[u8], body: &[u8]) -> Hashed
    ensures { result ≡ hashed_of key.now (head.now ++ body.now) }
{
    keyed_hash::keyed_hash_joined(key, head, body)
}

// A number of the answer list, and what it carries.
fn told(kind: u32, first: u64, second: u64, third: u64) -> Probed
    ensures { result ≡ told kind first second third }
{
    Probed {
        kind,
        first,
        second,
        third,
    }
}

// A defect's number and place.
fn defect_probe(defect: Defect) -> Probed
    ensures { result ≡ told (kind_number defect.kind) defect.at 0 0 }
{
    told(Answer::from(defect).into(), defect.at as u64, 0, 0)
}

fn decoded_probe(d: Result<usize, Undecoded>) -> Probed
    ensures { result ≡ decoded_probe d }
{
    match d {
        Ok(n) => told(0, n as u64, 0, 0),
        Err(Undecoded::Bad { at }) => told(3, at as u64, 0, 0),
        Err(Undecoded::Short) => told(36, 0, 0, 0),
    }
}

fn encoded_probe(e: Option<usize>) -> Probed
    ensures { result ≡ encoded_probe e }
{
    match e {
        Some(n) => told(0, n as u64, 0, 0),
        None => told(36, 0, 0, 0),
    }
}

// A head's defect is told by 4.
fn head_probe(h: Reading<Head>) -> Probed
    ensures { result ≡ head_probe h }
{
    match h {
        Ok(head) => told(0, head.value, head.next as u64, u64::from(head.major)),
        Err(defect) => told(4, defect.at as u64, 0, 0),
    }
}

fn content_probe(p: Reading<Span>) -> Probed
    ensures { result ≡ content_probe p }
{
    match p {
        Ok(span) => told(0, span.from as u64, span.to as u64, 0),
        Err(defect) => defect_probe(defect),
    }
}

fn item_probe(i: Reading<usize>) -> Probed
    ensures { result ≡ item_probe i }
{
    match i {
        Ok(next) => told(0, next as u64, 0, 0),
        Err(defect) => defect_probe(defect),
    }
}

fn cidr_probe(p: Option<Network>) -> Probed
    ensures { result ≡ cidr_probe p }
{
    match p {
        Some(w) => told(
            0,
            u64::from(u32::from_be_bytes(w.address)),
            u64::from(w.size),
            0,
        ),
        None => told(4, 0, 0, 0),
    }
}

fn bool_probe(b: bool) -> Probed
    ensures { result ≡ bool_probe b }
{
    told(0, u64::from(b), 0, 0)
}

fn class_at(n: u32) -> Class
    ensures { result ≡ class_at n }
{
    match n {
        0 => Class::Name,
        1 => Class::Printable,
        2 => Class::Path,
        3 => Class::Upper,
        _ => Class::Hex,
    }
}

#[unsafe(no_mangle)]
pub extern "C" fn probe_base64url_decode(text: &[u8], room: &mut [u8]) -> Probed
    ensures { DecodeProbed text.now room.old result room.new }
{
    decoded_probe(text_reading::decode(text, room))
}

#[unsafe(no_mangle)]
pub extern "C" fn probe_base64url_encode(bytes: &[u8], room: &mut [u8]) -> Probed
    ensures { EncodeProbed bytes.now room.old result room.new }
{
    encoded_probe(text_writing::encode(bytes, room))
}

#[unsafe(no_mangle)]
pub extern "C" fn probe_read_head(s: &[u8], at: usize) -> Probed
    ensures { result ≡ head_probe (read_head s.now at) }
{
    head_probe(cbor_heads::read_head(s, at))
}

#[unsafe(no_mangle)]
pub extern "C" fn probe_read_run(s: &[u8], at: usize, major: u8, low: u64, high: u64) -> Probed
    ensures { result ≡ content_probe (read_run s.now at major low high) }
{
    content_probe(cbor_strings::read_run(s, at, major, low, high))
}

#[unsafe(no_mangle)]
pub extern "C" fn probe_read_string(s: &[u8], at: usize, class: u32, low: u64, high: u64) -> Probed
    ensures { result ≡ content_probe (read_string s.now at (class_at class) low high) }
{
    content_probe(cbor_strings::read_string(s, at, class_at(class), low, high))
}

#[unsafe(no_mangle)]
pub extern "C" fn probe_read_value(s: &[u8], at: usize, depth: u8) -> Probed
    ensures { result ≡ item_probe (value_of depth s.now at) }
{
    item_probe(cbor_values::read_value(s, at, depth))
}

#[unsafe(no_mangle)]
pub extern "C" fn probe_read_cidr(s: &[u8]) -> Probed
    ensures { result ≡ cidr_probe (cidr_of s.now) }
{
    cidr_probe(token_cidr::read_cidr(s))
}

#[unsafe(no_mangle)]
pub extern "C" fn probe_first_bits_agree(x: &[u8], y: &[u8], n: u32) -> Probed
    ensures { result ≡ bool_probe (agree_of x.now y.now n) }
{
    bool_probe(token_cidr::first_bits_agree(x, y, n))
}
