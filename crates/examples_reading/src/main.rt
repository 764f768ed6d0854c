// Runs document 01's examples that are about reading: for each a line that says how many bytes were read,
// or the name of the first defect and its place.
#![tactic(auto)]

use answers::Answer;
use cbor_heads::defect::Defect;
use text_reading::Undecoded;
use token_caveat_values::CaveatAt;

fn print_answer(rt: &impl Print, answer: Answer, at: usize) {
    let _ = println!(rt; "{answer} at {at}");
}

fn print_defect(rt: &impl Print, defect: Defect) {
    print_answer(rt, defect.into(), defect.at);
}

fn print_read(rt: &impl Print, n: usize) {
    let _ = println!(rt; "read, {n} bytes");
}

fn print_number(rt: &impl Print, n: usize, number: u64) {
    let _ = println!(rt; "read, {n} bytes, number {number}");
}

fn show_caveat(rt: &impl Print, label: &[u8], s: &[u8]) {
    let _ = rt.write_all(label);
    match token_caveat::read_caveat(s) {
        Err(defect) => print_defect(rt, defect),
        Ok((caveat, next)) => match caveat {
            CaveatAt::Exp { n } => print_number(rt, next, n),
            _ => print_read(rt, next),
        },
    }
}

fn show_scope(rt: &impl Print, label: &[u8], s: &[u8]) {
    let _ = rt.write_all(label);
    match token_scope::read_scope(s, 0) {
        Err(defect) => print_defect(rt, defect),
        Ok((_, next)) => print_read(rt, next),
    }
}

fn show_bytes(rt: &impl Print, s: &[u8]) {
    match token::read_token(s) {
        Err(defect) => print_defect(rt, defect),
        Ok(_) => print_read(rt, s.len()),
    }
}

// A token's text, decoded into work room as the entry points do it.
fn show_token(rt: &impl Print, label: &[u8], text: &[u8]) {
    let _ = rt.write_all(label);
    let mut room = [0u8; 4096];
    match text_reading::decode(text, &mut room) {
        Err(Undecoded::Bad { at }) => print_answer(rt, Answer::ParseB64, at),
        Err(Undecoded::Short) => print_answer(rt, Answer::ParseBounds, 0),
        Ok(n) => show_bytes(rt, &room[..n.min(4096)]),
    }
}

fn caveats(rt: &impl Print) {
    show_caveat(rt, b"exp 1a 69 55 b9 00: ", b"\xa2atcexpav\x1aiU\xb9\x00");
    show_caveat(
        rt,
        b"exp of 2^64 - 1: ",
        b"\xa2atcexpav\x1b\xff\xff\xff\xff\xff\xff\xff\xff",
    );
    show_caveat(
        rt,
        b"exp in a long form: ",
        b"\xa2atcexpav\x1b\x00\x00\x00\x00iU\xb9\x00",
    );
    show_caveat(rt, b"ip_cidr 10.0.0.0/8: ", b"\xa2atgip_cidravj10.0.0.0/8");
    show_caveat(rt, b"ip_cidr 10.0.0.1/8: ", b"\xa2atgip_cidravj10.0.0.1/8");
    show_caveat(
        rt,
        b"path_prefix /o/b3:abcd: ",
        b"\xa2atkpath_prefixavj/o/b3:abcd",
    );
    show_caveat(rt, b"path_prefix of no bytes: ", b"\xa2atkpath_prefixav`");
    rewritten(rt);
    show_caveat(rt, b"an unknown t: ", b"\xa2atgexpiresav\x01");
    show_caveat(rt, b"v before t: ", b"\xa2av\x01atcexp");
    show_caveat(rt, b"a third entry: ", b"\xa3atcexpav\x1aiU\xb9\x00");
    show_caveat(
        rt,
        b"rate of 2^32: ",
        b"\xa2atdrateav\xa2eburst\x1b\x00\x00\x00\x01\x00\x00\x00\x00eper_s\x01",
    );
    show_caveat(
        rt,
        b"custom value, four arrays deep: ",
        b"\xa2atfcustomav\xa3bnsandcbor\x81\x81\x81\x80dnameam",
    );
    show_caveat(
        rt,
        b"custom value, five arrays deep: ",
        b"\xa2atfcustomav\xa3bnsandcbor\x81\x81\x81\x81\x80dnameam",
    );
}

// What proxies rewrite (document 02, M-106), of each kind one, and what they leave.
fn rewritten(rt: &impl Print) {
    show_caveat(
        rt,
        b"path_prefix /relay/%31: ",
        b"\xa2atkpath_prefixavj/relay/%31",
    );
    show_caveat(
        rt,
        b"path_prefix /relay//1: ",
        b"\xa2atkpath_prefixavi/relay//1",
    );
    show_caveat(
        rt,
        b"path_prefix /relay/./1: ",
        b"\xa2atkpath_prefixavj/relay/./1",
    );
    show_caveat(
        rt,
        b"path_prefix /relay/1/..: ",
        b"\xa2atkpath_prefixavk/relay/1/..",
    );
    show_caveat(
        rt,
        b"path_prefix /relay/.1: ",
        b"\xa2atkpath_prefixavi/relay/.1",
    );
    show_caveat(
        rt,
        b"path_prefix /relay/1/: ",
        b"\xa2atkpath_prefixavi/relay/1/",
    );
}

fn scopes(rt: &impl Print) {
    show_scope(rt, b"scope with GET only: ", b"\xa1gmethods\x81cGET");
    show_scope(
        rt,
        b"scope with max_bytes before methods: ",
        b"\xa2imax_bytes\x05gmethods\x80",
    );
    show_scope(rt, b"scope with prefix alone: ", b"\xa1fprefixb/a");
    show_scope(
        rt,
        b"scope with prefix /relay/%31: ",
        b"\xa2fprefixj/relay/%31gmethods\x81cGET",
    );
    show_scope(
        rt,
        b"scope with prefix /relay//1: ",
        b"\xa2fprefixi/relay//1gmethods\x81cGET",
    );
    show_scope(
        rt,
        b"scope with prefix /relay/./1: ",
        b"\xa2fprefixj/relay/./1gmethods\x81cGET",
    );
    show_scope(
        rt,
        b"scope with prefix /relay/1/..: ",
        b"\xa2fprefixk/relay/1/..gmethods\x81cGET",
    );
    show_scope(
        rt,
        b"seventeen methods: ",
        b"\xa1gmethods\x91cGETcGETcGETcGETcGETcGETcGETcGETcGETcGETcGETcGETcGETcGETcGETcGETcGET",
    );
}

fn tokens(rt: &impl Print) {
    show_token(rt, b"the empty text: ", b"");
    show_token(
        rt,
        b"a token without caveats: ",
        b"pmFjgGFyoWdtZXRob2RzgWNHRVRhc1ggAAECAwQFBgcICQoLDA0ODxAREhMUFRYXGBkaGxwdHh9hdgFja2lkYWtjdGlkYXQ",
    );
    show_token(
        rt,
        b"a byte left over: ",
        b"pmFjgGFyoWdtZXRob2RzgWNHRVRhc1ggAAECAwQFBgcICQoLDA0ODxAREhMUFRYXGBkaGxwdHh9hdgFja2lkYWtjdGlkYXQA",
    );
    show_token(
        rt,
        b"v of 2: ",
        b"pmFjgGFyoWdtZXRob2RzgWNHRVRhc1ggAAECAwQFBgcICQoLDA0ODxAREhMUFRYXGBkaGxwdHh9hdgJja2lkYWtjdGlkYXQ",
    );
    show_token(
        rt,
        b"v as text: ",
        b"pmFjgGFyoWdtZXRob2RzgWNHRVRhc1ggAAECAwQFBgcICQoLDA0ODxAREhMUFRYXGBkaGxwdHh9hdmExY2tpZGFrY3RpZGF0",
    );
    show_token(
        rt,
        b"tag of 31 bytes: ",
        b"pmFjgGFyoWdtZXRob2RzgWNHRVRhc1gfAAECAwQFBgcICQoLDA0ODxAREhMUFRYXGBkaGxwdHmF2AWNraWRha2N0aWRhdA",
    );
    show_token(
        rt,
        b"sixty-five caveats: ",
        b"pmFjmEFhcqFnbWV0aG9kc4FjR0VUYXNYIAABAgMEBQYHCAkKCwwNDg8QERITFBUWFxgZGhscHR4fYXYBY2tpZGFrY3RpZGF0",
    );
    show_token(
        rt,
        b"a caveat with ip_cidr 10.0.0.1/8: ",
        b"pmFjgaJhdGdpcF9jaWRyYXZqMTAuMC4wLjEvOGFyoWdtZXRob2RzgWNHRVRhc1ggAAECAwQFBgcICQoLDA0ODxAREhMUFRYXGBkaGxwdHh9hdgFja2lkYWtjdGlkYXQ",
    );
    show_token(
        rt,
        b"a token with scope prefix /relay//1: ",
        b"pmFjgGFyomZwcmVmaXhpL3JlbGF5Ly8xZ21ldGhvZHOBY0dFVGFzWCAAAQIDBAUGBwgJCgsMDQ4PEBESExQVFhcYGRobHB0eH2F2AWNraWRha2N0aWRhdA",
    );
}

fn main(rt: HostRuntime) {
    caveats(&rt);
    scopes(&rt);
    tokens(&rt);
}
