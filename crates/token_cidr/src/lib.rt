// The text of an IPv4 prefix, judged whole: one spelling for each prefix, anything else is refused.
// And whether first bits agree, over strings of bytes of any length, so that no width is written here.
#![tactic(auto)]

ghost use Rattle.std.specs.Prelude.{◌≡◌, ◌≤◌, ◌<◌, IfSome, length};
ghost use Rattle.basis.specs.Limits.{cidr_most};
ghost use Rattle.token_cidr.specs.Bits.{agree_of};
ghost use Rattle.token_cidr.specs.Reading.{network_of, digit_at, decimal_at, part_at, size_at, zeros_past, cidr_of};

use basis::limits;

// The address's bytes in written order, and how many of its bits count.
#[derive(Clone, Copy)]
pub struct Network {
    pub address: [u8; 4],
    pub size: u32,
}

impl Network {
    // Of four numbers, of each its lowest eight bits.
    pub fn of(a: u32, b: u32, c: u32, d: u32, size: u32) -> Network
        ensures { result ≡ network_of a b c d size }
    {
        Network {
            address: [
                (a % 256) as u8,
                (b % 256) as u8,
                (c % 256) as u8,
                (d % 256) as u8,
            ],
            size,
        }
    }
}

// The digit at a place, where there is one.
#[tactic(auto, unfolding(crate::specs::Reading::digit_at))]
fn digit_at(s: &[u8], at: usize) -> Option<u32>
    ensures is { result ≡ digit_at s.now at }
    ensures small { IfSome result (λ digit. digit ≤ 9) }
    ensures inside { IfSome result (λ _. at < length s.now) }
{
    let c = *s.get(at)?;
    if c.is_ascii_digit() {
        return Some(u32::from(c - b'0'));
    }
    None
}

// A number of one to three digits without leading zeros, and the place behind it.
#[tactic(auto, unfolding(crate::specs::Reading::decimal_at))]
fn decimal_at(s: &[u8], at: usize) -> Option<(u32, usize)>
    ensures { result ≡ decimal_at s.now at }
{
    let x = digit_at(s, at)?;
    if x == 0 {
        return Some((0, at + 1));
    }
    let Some(y) = digit_at(s, at + 1) else {
        return Some((x, at + 1));
    };
    let Some(z) = digit_at(s, at + 2) else {
        return Some((x * 10 + y, at + 2));
    };
    Some((x * 100 + y * 10 + z, at + 3))
}

// A byte of the address with the mark behind it.
#[tactic(auto, unfolding(crate::specs::Reading::part_at))]
fn part_at(s: &[u8], at: usize, mark: u8) -> Option<(u8, usize)>
    ensures { result ≡ part_at s.now at mark }
{
    let (value, next) = decimal_at(s, at)?;
    let byte = u8::try_from(value).ok()?;
    (*s.get(next)? == mark).then_some((byte, next + 1))
}

// How many bits count, with nothing behind it.
#[tactic(auto, unfolding(crate::specs::Reading::size_at))]
fn size_at(s: &[u8], at: usize) -> Option<u32>
    ensures is { result ≡ size_at s.now at }
    ensures within { IfSome result (λ size. size ≤ cidr_most) }
{
    let (size, next) = decimal_at(s, at)?;
    (size <= limits::CIDR_MOST && next == s.len()).then_some(size)
}

// Whether the bits of the address past the first ones, as many as `size`, are zero.
fn zeros_past(address: [u8; 4], size: u32) -> bool
    requires { size ≤ cidr_most }
    ensures { result ≡ zeros_past address size }
{
    let unit: u64 = 1 << (limits::CIDR_MOST - size);
    u64::from(u32::from_be_bytes(address)) % unit == 0
}

#[tactic(auto, unfolding(crate::specs::Reading::cidr_of))]
pub fn read_cidr(s: &[u8]) -> Option<Network>
    ensures { result ≡ cidr_of s.now }
{
    let (a, at) = part_at(s, 0, b'.')?;
    let (b, at) = part_at(s, at, b'.')?;
    let (c, at) = part_at(s, at, b'.')?;
    let (d, at) = part_at(s, at, b'/')?;
    let size = size_at(s, at)?;
    let address = [a, b, c, d];
    zeros_past(address, size).then_some(Network { address, size })
}

// Whether the first n bits of two strings of bytes agree; where one has fewer bits, the other must too.
pub fn first_bits_agree(x: &[u8], y: &[u8], n: u32) -> bool
    ensures { result ≡ agree_of x.now y.now n }
{
    let mut left = n;
    for (&a, &b) in x.iter().zip(y) {
        if left < 8 {
            return u32::from(a) >> (8 - left) == u32::from(b) >> (8 - left);
        }
        if a != b {
            return false;
        }
        left -= 8;
    }
    left == 0 || x.len() == y.len()
}
