// Key tables and requests as the host tests read them. Nothing of the product stands on it.
#![tactic(auto)]

ghost use Rattle.std.specs.Prelude.{◌≡◌, ℕ, Option, unwrap_or};
ghost use Rattle.basis.specs.Basis.{Written};
ghost use Rattle.records_table.specs.Reading.{table_ok, lookup_of};
ghost use Rattle.records_request.specs.Reading.{request_of};
ghost use Rattle.probe_records.specs.RecordsProbes.{bit_of, told, part_probe, rate_probe, request_probe};

use basis::Span;
use records_request::{Rate, RequestAt};

// An answer as numbers: a host cannot take an enum apart by Rattle's layout.
#[repr(C)]
#[derive(Clone, Copy)]
pub struct Listed {
    pub kind: u32,
    pub numbers: [u64; 20],
}

// Whether a part is there, and its numbers.
#[derive(Clone, Copy)]
pub struct Told {
    pub there: u64,
    pub a: u64,
    pub b: u64,
}

fn pair_probe(pair: Option<(u64, u64)>) -> Told
    ensures { result ≡ told pair }
{
    match pair {
        None => Told {
            there: 0,
            a: 0,
            b: 0,
        },
        Some((a, b)) => Told { there: 1, a, b },
    }
}

fn part_probe(p: Option<Span>) -> Told
    ensures { result ≡ part_probe p }
{
    pair_probe(p.map(|span| (span.from as u64, span.to as u64)))
}

fn rate_probe(p: Option<Rate>) -> Told
    ensures { result ≡ rate_probe p }
{
    pair_probe(p.map(|rate| (rate.per_s, rate.burst)))
}

fn request_probe(p: Option<RequestAt>) -> Listed
    ensures { result ≡ request_probe p }
{
    let Some(request) = p else {
        return Listed {
            kind: 2,
            numbers: [0; 20],
        };
    };
    let x = part_probe(request.peer);
    let y = part_probe(request.digest);
    let z = rate_probe(request.rate);
    let w = part_probe(request.audience);
    Listed {
        kind: 0,
        numbers: [
            request.now,
            request.size,
            request.skew,
            u64::from(request.amnesia),
            x.there,
            x.a,
            y.there,
            y.a,
            z.there,
            z.a,
            z.b,
            request.method.from as u64,
            request.method.to as u64,
            request.path.from as u64,
            request.path.to as u64,
            request.tenant.from as u64,
            request.tenant.to as u64,
            w.there,
            w.a,
            w.b,
        ],
    }
}

#[unsafe(no_mangle)]
pub extern "C" fn probe_table_ok(table: &[u8]) -> u32
    ensures { result ≡ bit_of (table_ok table.now) }
{
    u32::from(records_table::table_ok(table))
}

// The key is copied into the room, and its length told, 0 where it is not there: a host cannot take a part by
// Rattle's layout.
#[unsafe(no_mangle)]
pub extern "C" fn probe_lookup(table: &[u8], tid: &[u8], kid: &[u8], room: &mut [u8]) -> usize
    ensures { (count : Option ℕ)
        × Written (lookup_of table.now tid.now kid.now) room.old count room.new
        × (result ≡ unwrap_or count 0) }
{
    let key = records_table::lookup(table, tid, kid);
    basis::put(key, room).unwrap_or(0)
}

#[unsafe(no_mangle)]
pub extern "C" fn probe_read_request(s: &[u8]) -> Listed
    ensures { result ≡ request_probe (request_of s.now) }
{
    request_probe(records_request::read_request(s))
}
