// Runs document 01's examples that verify can show, and document 02's of prefixes and paths: for each a line
// that says "allow", or "deny " and the name of the reason.
//
// All bytes stand here as document 01's rules make them, written without the product's code. A token's
// tag is the last link of document 01's chain, hashed by the official b3sum --keyed under the key that ends
// the table's row; one example then changes a bit of it. Tokens are tenant-1's under kid-2025-10, one under
// kid-2025-11. host/checks/tests/verify_examples.rs makes all but these two from their parts with the
// official crate.
#![tactic(auto)]

use answers::Answer;

// The exported function answers a number; one that no answer has would print as "?".
fn print_name(rt: &impl Print, number: u32) {
    let _ = match Answer::try_from(number) {
        Ok(answer) => print!(rt; "{answer}"),
        Err(_) => print!(rt; "?"),
    };
}

fn show(rt: &impl Print, label: &[u8], table: &[u8], request: &[u8], token: &[u8]) {
    let _ = rt.write_all(label);
    let number = bhinorpa::bhinorpa_verify(table, request, token);
    if number != 0 {
        let _ = rt.write_all(b"deny ");
    }
    print_name(rt, number);
    let _ = rt.write_all(b"\n");
}

// Under a table of one row: its body's length and kind, then tid, kid and key.
fn show_asked(rt: &impl Print, label: &[u8], request: &[u8], token: &[u8]) {
    show(
        rt,
        label,
        b"\x35\0\x01\0\x08tenant-1\x0bkid-2025-10whats the Elvish word for friend",
        request,
        token,
    );
}

// For GET on / at time 0, with skew 300. A request line by line: now; body size; skew and flags; the peer,
// if flagged; method, path and tenant, each after its length.
fn show_token(rt: &impl Print, label: &[u8], token: &[u8]) {
    show_asked(
        rt,
        label,
        b"\0\0\0\0\0\0\0\0\
          \0\0\0\0\0\0\0\0\
          \x2c\x01\0\
          \x03\0GET\x01\0/\x08\0tenant-1",
        token,
    );
}

// A request for the token that expires at 1767225600.
fn show_exp(rt: &impl Print, label: &[u8], request: &[u8]) {
    show_asked(
        rt,
        label,
        request,
        b"pmFjgaJhdGNleHBhdhppVbkAYXKhZ21ldGhvZHOBY0dFVGFzWCDF0rJK6U34-UPJoEDZfFDTiclDGB1eMAAu8RqsKH8deGF2AWNraWRra2lkLTIwMjUtMTBjdGlkaHRlbmFudC0x",
    );
}

// A request for the token that expires at 2^64 - 1.
fn show_last_exp(rt: &impl Print, label: &[u8], request: &[u8]) {
    show_asked(
        rt,
        label,
        request,
        b"pmFjgaJhdGNleHBhdhv__________2FyoWdtZXRob2RzgWNHRVRhc1ggJSPb04q_RW8J_vRcXOdgttDyo9koO6zLNsDfhJdpHBthdgFja2lka2tpZC0yMDI1LTEwY3RpZGh0ZW5hbnQtMQ",
    );
}

fn expiries(rt: &impl Print) {
    show_exp(
        rt,
        b"exp 1767225600, skew 300, at 1767225900: ",
        b"\x2c\xba\x55\x69\0\0\0\0\
          \0\0\0\0\0\0\0\0\
          \x2c\x01\0\
          \x03\0GET\x01\0/\x08\0tenant-1",
    );
    show_exp(
        rt,
        b"exp 1767225600, skew 300, at 1767225901: ",
        b"\x2d\xba\x55\x69\0\0\0\0\
          \0\0\0\0\0\0\0\0\
          \x2c\x01\0\
          \x03\0GET\x01\0/\x08\0tenant-1",
    );
    show_last_exp(
        rt,
        b"exp 2^64 - 1, skew 0, at 2^64 - 1: ",
        b"\xff\xff\xff\xff\xff\xff\xff\xff\
          \0\0\0\0\0\0\0\0\
          \0\0\0\
          \x03\0GET\x01\0/\x08\0tenant-1",
    );
    show_last_exp(
        rt,
        b"exp 2^64 - 1, skew 300, at 2^64 - 1: ",
        b"\xff\xff\xff\xff\xff\xff\xff\xff\
          \0\0\0\0\0\0\0\0\
          \x2c\x01\0\
          \x03\0GET\x01\0/\x08\0tenant-1",
    );
}

// A request for the token whose caveat is ip_cidr 10.0.0.0/8.
fn show_peer(rt: &impl Print, label: &[u8], request: &[u8]) {
    show_asked(
        rt,
        label,
        request,
        b"pmFjgaJhdGdpcF9jaWRyYXZqMTAuMC4wLjAvOGFyoWdtZXRob2RzgWNHRVRhc1gg1fw-FCLvb6wifpJIStdN202IA2wjWeaa8rufixq9Ov9hdgFja2lka2tpZC0yMDI1LTEwY3RpZGh0ZW5hbnQtMQ",
    );
}

fn addresses(rt: &impl Print) {
    show_peer(
        rt,
        b"ip_cidr 10.0.0.0/8, peer 10.255.255.255: ",
        b"\0\0\0\0\0\0\0\0\
          \0\0\0\0\0\0\0\0\
          \x2c\x01\x02\
          \x0a\xff\xff\xff\
          \x03\0GET\x01\0/\x08\0tenant-1",
    );
    show_peer(
        rt,
        b"ip_cidr 10.0.0.0/8, peer 11.0.0.0: ",
        b"\0\0\0\0\0\0\0\0\
          \0\0\0\0\0\0\0\0\
          \x2c\x01\x02\
          \x0b\0\0\0\
          \x03\0GET\x01\0/\x08\0tenant-1",
    );
    show_peer(
        rt,
        b"ip_cidr 10.0.0.0/8, peer 9.255.255.255: ",
        b"\0\0\0\0\0\0\0\0\
          \0\0\0\0\0\0\0\0\
          \x2c\x01\x02\
          \x09\xff\xff\xff\
          \x03\0GET\x01\0/\x08\0tenant-1",
    );
    show_peer(
        rt,
        b"ip_cidr 10.0.0.0/8, no peer: ",
        b"\0\0\0\0\0\0\0\0\
          \0\0\0\0\0\0\0\0\
          \x2c\x01\0\
          \x03\0GET\x01\0/\x08\0tenant-1",
    );
    show_token(
        rt,
        b"ip_cidr 10.0.0.1/8: ",
        b"pmFjgaJhdGdpcF9jaWRyYXZqMTAuMC4wLjEvOGFyoWdtZXRob2RzgWNHRVRhc1ggfS5kyOlf2LXP5ihOAcLu4pXZFf7DHxIuQx8cgi6f_JxhdgFja2lka2tpZC0yMDI1LTEwY3RpZGh0ZW5hbnQtMQ",
    );
}

// A request for /o/b3:abcd/some.
fn show_under(rt: &impl Print, label: &[u8], token: &[u8]) {
    show_asked(
        rt,
        label,
        b"\0\0\0\0\0\0\0\0\
          \0\0\0\0\0\0\0\0\
          \x2c\x01\0\
          \x03\0GET\x0f\0/o/b3:abcd/some\x08\0tenant-1",
        token,
    );
}

// A request for /o/b3:abc.
fn show_beside(rt: &impl Print, label: &[u8], token: &[u8]) {
    show_asked(
        rt,
        label,
        b"\0\0\0\0\0\0\0\0\
          \0\0\0\0\0\0\0\0\
          \x2c\x01\0\
          \x03\0GET\x09\0/o/b3:abc\x08\0tenant-1",
        token,
    );
}

fn prefixes(rt: &impl Print) {
    let scope =
        b"pmFjgGFyomZwcmVmaXhqL28vYjM6YWJjZGdtZXRob2RzgWNHRVRhc1ggXSWz1DStvLN4PhmvDAiV9BD9P9WgYQuZeiqBjCt8NHRhdgFja2lka2tpZC0yMDI1LTEwY3RpZGh0ZW5hbnQtMQ";
    show_under(
        rt,
        b"scope prefix /o/b3:abcd, path /o/b3:abcd/some: ",
        scope,
    );
    show_beside(rt, b"scope prefix /o/b3:abcd, path /o/b3:abc: ", scope);
    let caveat =
        b"pmFjgaJhdGtwYXRoX3ByZWZpeGF2ai9vL2IzOmFiY2RhcqFnbWV0aG9kc4FjR0VUYXNYIBG7wngNTNmJXtEA-o_5LWpc1Ai_ALmlpVy6xdb_GE7rYXYBY2tpZGtraWQtMjAyNS0xMGN0aWRodGVuYW50LTE";
    show_under(
        rt,
        b"path_prefix /o/b3:abcd, path /o/b3:abcd/some: ",
        caveat,
    );
    show_beside(rt, b"path_prefix /o/b3:abcd, path /o/b3:abc: ", caveat);
}

// A path beside the prefix /relay/1, in the scope and then in a caveat.
fn show_relay(rt: &impl Print, path: &[u8], request: &[u8]) {
    let _ = rt.write_all(b"scope prefix /relay/1, path ");
    let _ = rt.write_all(path);
    show_asked(
        rt,
        b": ",
        request,
        b"pmFjgGFyomZwcmVmaXhoL3JlbGF5LzFnbWV0aG9kc4FjR0VUYXNYIHUAe2Pan7EazGGI9e2FJLnOXnC4DkPTd1r8EvkmCcG3YXYBY2tpZGtraWQtMjAyNS0xMGN0aWRodGVuYW50LTE",
    );
    let _ = rt.write_all(b"path_prefix /relay/1, path ");
    let _ = rt.write_all(path);
    show_asked(
        rt,
        b": ",
        request,
        b"pmFjgaJhdGtwYXRoX3ByZWZpeGF2aC9yZWxheS8xYXKhZ21ldGhvZHOBY0dFVGFzWCAsHbBsMTFTTCkhG40w42XAH-N9F5I7_rftVBwqp0ueVGF2AWNraWRra2lkLTIwMjUtMTBjdGlkaHRlbmFudC0x",
    );
}

// Document 02's cases (M-100), and a next byte that is neither of these.
fn relays(rt: &impl Print) {
    show_relay(
        rt,
        b"/relay/1",
        b"\0\0\0\0\0\0\0\0\
          \0\0\0\0\0\0\0\0\
          \x2c\x01\0\
          \x03\0GET\x08\0/relay/1\x08\0tenant-1",
    );
    show_relay(
        rt,
        b"/relay/1/count",
        b"\0\0\0\0\0\0\0\0\
          \0\0\0\0\0\0\0\0\
          \x2c\x01\0\
          \x03\0GET\x0e\0/relay/1/count\x08\0tenant-1",
    );
    show_relay(
        rt,
        b"/relay/12",
        b"\0\0\0\0\0\0\0\0\
          \0\0\0\0\0\0\0\0\
          \x2c\x01\0\
          \x03\0GET\x09\0/relay/12\x08\0tenant-1",
    );
    show_relay(
        rt,
        b"/relay/1?n=2",
        b"\0\0\0\0\0\0\0\0\
          \0\0\0\0\0\0\0\0\
          \x2c\x01\0\
          \x03\0GET\x0c\0/relay/1?n=2\x08\0tenant-1",
    );
    show_relay(
        rt,
        b"/relay/1#n",
        b"\0\0\0\0\0\0\0\0\
          \0\0\0\0\0\0\0\0\
          \x2c\x01\0\
          \x03\0GET\x0a\0/relay/1#n\x08\0tenant-1",
    );
}

// A prefix that ends in "/".
fn slashes(rt: &impl Print) {
    show_asked(
        rt,
        b"scope prefix /relay/1/, path /relay/1: ",
        b"\0\0\0\0\0\0\0\0\
          \0\0\0\0\0\0\0\0\
          \x2c\x01\0\
          \x03\0GET\x08\0/relay/1\x08\0tenant-1",
        b"pmFjgGFyomZwcmVmaXhpL3JlbGF5LzEvZ21ldGhvZHOBY0dFVGFzWCA61mVTWqMRJclOpndsh1_QewHS4C6weHFmH4uCsc8ANWF2AWNraWRra2lkLTIwMjUtMTBjdGlkaHRlbmFudC0x",
    );
    show_asked(
        rt,
        b"scope prefix /relay/1/, path /relay/1/count: ",
        b"\0\0\0\0\0\0\0\0\
          \0\0\0\0\0\0\0\0\
          \x2c\x01\0\
          \x03\0GET\x0e\0/relay/1/count\x08\0tenant-1",
        b"pmFjgGFyomZwcmVmaXhpL3JlbGF5LzEvZ21ldGhvZHOBY0dFVGFzWCA61mVTWqMRJclOpndsh1_QewHS4C6weHFmH4uCsc8ANWF2AWNraWRra2lkLTIwMjUtMTBjdGlkaHRlbmFudC0x",
    );
    show_asked(
        rt,
        b"scope prefix /, path /relay/12: ",
        b"\0\0\0\0\0\0\0\0\
          \0\0\0\0\0\0\0\0\
          \x2c\x01\0\
          \x03\0GET\x09\0/relay/12\x08\0tenant-1",
        b"pmFjgGFyomZwcmVmaXhhL2dtZXRob2RzgWNHRVRhc1ggo2KFkeF0Xd2sIC8RyUYeAxIpDHH7hgKbzrfRivnt5EphdgFja2lka2tpZC0yMDI1LTEwY3RpZGh0ZW5hbnQtMQ",
    );
}

// What proxies rewrite (document 02, M-106), of each kind one: in a request; and in old tokens, which were readable
// before and whose tags are right.
fn show_rewritten(rt: &impl Print, path: &[u8], request: &[u8], scope: &[u8], caveat: &[u8]) {
    let _ = rt.write_all(b"path ");
    let _ = rt.write_all(path);
    show_asked(
        rt,
        b": ",
        request,
        b"pmFjgGFyoWdtZXRob2RzgWNHRVRhc1gg1LkAvHZ-TOaDZFIaxXS1MQrPO4ELXxUPIjBJn-qTvYdhdgFja2lka2tpZC0yMDI1LTEwY3RpZGh0ZW5hbnQtMQ",
    );
    let _ = rt.write_all(b"scope prefix ");
    let _ = rt.write_all(path);
    show_token(rt, b": ", scope);
    let _ = rt.write_all(b"path_prefix ");
    let _ = rt.write_all(path);
    show_token(rt, b": ", caveat);
}

fn rewritten(rt: &impl Print) {
    show_rewritten(
        rt,
        b"/relay/%31",
        b"\0\0\0\0\0\0\0\0\
          \0\0\0\0\0\0\0\0\
          \x2c\x01\0\
          \x03\0GET\x0a\0/relay/%31\x08\0tenant-1",
        b"pmFjgGFyomZwcmVmaXhqL3JlbGF5LyUzMWdtZXRob2RzgWNHRVRhc1ggLoT0oMG8xm0FhF67zEe8Zi33ZJkMtQWZZt5XV74J3lNhdgFja2lka2tpZC0yMDI1LTEwY3RpZGh0ZW5hbnQtMQ",
        b"pmFjgaJhdGtwYXRoX3ByZWZpeGF2ai9yZWxheS8lMzFhcqFnbWV0aG9kc4FjR0VUYXNYIAmjsT5_6vMn5Aq_W70KJB1H0iaPLR3tYi8hTtPd7mt9YXYBY2tpZGtraWQtMjAyNS0xMGN0aWRodGVuYW50LTE",
    );
    show_rewritten(
        rt,
        b"/relay//1",
        b"\0\0\0\0\0\0\0\0\
          \0\0\0\0\0\0\0\0\
          \x2c\x01\0\
          \x03\0GET\x09\0/relay//1\x08\0tenant-1",
        b"pmFjgGFyomZwcmVmaXhpL3JlbGF5Ly8xZ21ldGhvZHOBY0dFVGFzWCApI5fjMEU_En4-DxYHrhaM1he9RMQSqxS0lq0_kTSbZ2F2AWNraWRra2lkLTIwMjUtMTBjdGlkaHRlbmFudC0x",
        b"pmFjgaJhdGtwYXRoX3ByZWZpeGF2aS9yZWxheS8vMWFyoWdtZXRob2RzgWNHRVRhc1gg2rgcKBR9mhmduXq1gIyVREjGLNWxq_nDcLeOf3Mq2PVhdgFja2lka2tpZC0yMDI1LTEwY3RpZGh0ZW5hbnQtMQ",
    );
    show_rewritten(
        rt,
        b"/relay/./1",
        b"\0\0\0\0\0\0\0\0\
          \0\0\0\0\0\0\0\0\
          \x2c\x01\0\
          \x03\0GET\x0a\0/relay/./1\x08\0tenant-1",
        b"pmFjgGFyomZwcmVmaXhqL3JlbGF5Ly4vMWdtZXRob2RzgWNHRVRhc1ggVGLjFByVS0ZdhdsSHJDfVda73xuksjo2-AR4MYeQLzRhdgFja2lka2tpZC0yMDI1LTEwY3RpZGh0ZW5hbnQtMQ",
        b"pmFjgaJhdGtwYXRoX3ByZWZpeGF2ai9yZWxheS8uLzFhcqFnbWV0aG9kc4FjR0VUYXNYIFykPg56YWOixHmRarWZRvw1YnXUrLZQzGhtuymtL7S3YXYBY2tpZGtraWQtMjAyNS0xMGN0aWRodGVuYW50LTE",
    );
    show_rewritten(
        rt,
        b"/relay/1/..",
        b"\0\0\0\0\0\0\0\0\
          \0\0\0\0\0\0\0\0\
          \x2c\x01\0\
          \x03\0GET\x0b\0/relay/1/..\x08\0tenant-1",
        b"pmFjgGFyomZwcmVmaXhrL3JlbGF5LzEvLi5nbWV0aG9kc4FjR0VUYXNYIO2sFUOsetcX9JsLPgqbKi-7ha_3E2OIlnkOVXOE4SGlYXYBY2tpZGtraWQtMjAyNS0xMGN0aWRodGVuYW50LTE",
        b"pmFjgaJhdGtwYXRoX3ByZWZpeGF2ay9yZWxheS8xLy4uYXKhZ21ldGhvZHOBY0dFVGFzWCDSpp2QBI-imwekY-uvppl-gNLnbbbheV-lSrEH2BfABGF2AWNraWRra2lkLTIwMjUtMTBjdGlkaHRlbmFudC0x",
    );
}

// Dots that are no segment of their own.
fn dotted(rt: &impl Print) {
    show_asked(
        rt,
        b"scope prefix /relay/.1, path /relay/.1: ",
        b"\0\0\0\0\0\0\0\0\
          \0\0\0\0\0\0\0\0\
          \x2c\x01\0\
          \x03\0GET\x09\0/relay/.1\x08\0tenant-1",
        b"pmFjgGFyomZwcmVmaXhpL3JlbGF5Ly4xZ21ldGhvZHOBY0dFVGFzWCCcDGKH6OL0tjY1-j4AOcF_HI4XRkwavHjTKHaUaB0-i2F2AWNraWRra2lkLTIwMjUtMTBjdGlkaHRlbmFudC0x",
    );
    show_asked(
        rt,
        b"scope prefix /relay/.../1, path /relay/.../1: ",
        b"\0\0\0\0\0\0\0\0\
          \0\0\0\0\0\0\0\0\
          \x2c\x01\0\
          \x03\0GET\x0c\0/relay/.../1\x08\0tenant-1",
        b"pmFjgGFyomZwcmVmaXhsL3JlbGF5Ly4uLi8xZ21ldGhvZHOBY0dFVGFzWCCFoleWPlaTBZ2g91fD5pUAlvYmkrT-i5iI7V7Wg5jc6mF2AWNraWRra2lkLTIwMjUtMTBjdGlkaHRlbmFudC0x",
    );
}

fn methods(rt: &impl Print) {
    show_token(
        rt,
        b"no methods in the scope: ",
        b"pmFjgGFyoWdtZXRob2RzgGFzWCCjtE8O4CO3A5fXAtcbo9MWqmuG0IekxlgVeaEMXrnzl2F2AWNraWRra2lkLTIwMjUtMTBjdGlkaHRlbmFudC0x",
    );
    show_token(
        rt,
        b"no methods in a method caveat: ",
        b"pmFjgaJhdGZtZXRob2RhdoBhcqFnbWV0aG9kc4FjR0VUYXNYICoMF_URhs2cXRFMKkbjaPR_6fDWXP9Zi7iUeHuzI0YIYXYBY2tpZGtraWQtMjAyNS0xMGN0aWRodGVuYW50LTE",
    );
}

// Its scope, its three caveats and its request, with a body as long as max_bytes allows and no skew.
fn sample(rt: &impl Print) {
    show_asked(
        rt,
        b"the sample of document 004, section 5.2: ",
        b"\xff\xb8\x55\x69\0\0\0\0\
          \0\0\x10\0\0\0\0\0\
          \0\0\0\
          \x03\0GET\x0f\0/o/b3:abcd/some\x08\0tenant-1",
        b"pmFjg6JhdGNleHBhdhppVbkAomF0Zm1ldGhvZGF2gWNHRVSiYXRrcGF0aF9wcmVmaXhhdmovby9iMzphYmNkYXKjZnByZWZpeGovby9iMzphYmNkZ21ldGhvZHOBY0dFVGltYXhfYnl0ZXMaABAAAGFzWCC3UIoABBqgrX5FW7WpQugqlFc4ZkXOGVVw-F0h-XMFRWF2AWNraWRra2lkLTIwMjUtMTBjdGlkaHRlbmFudC0x",
    );
}

fn keys_and_tags(rt: &impl Print) {
    show_token(
        rt,
        b"a key id that is not in the table: ",
        b"pmFjgGFyoWdtZXRob2RzgWNHRVRhc1gg4MhjIW5hQLWjU8A6027pb2VW2FihxQM09zC15LTVwbZhdgFja2lka2tpZC0yMDI1LTExY3RpZGh0ZW5hbnQtMQ",
    );
    show_token(
        rt,
        b"one bit of the tag changed: ",
        b"pmFjgGFyoWdtZXRob2RzgWNHRVRhc1gg1LkAvHZ-TOaDZFIaxXS1MQrPO4ELXxUPIjBJn-qTvYZhdgFja2lka2tpZC0yMDI1LTEwY3RpZGh0ZW5hbnQtMQ",
    );
}

// A good token, allowed where nothing else is wrong.
fn surroundings(rt: &impl Print) {
    let good =
        b"pmFjgGFyoWdtZXRob2RzgWNHRVRhc1gg1LkAvHZ-TOaDZFIaxXS1MQrPO4ELXxUPIjBJn-qTvYdhdgFja2lka2tpZC0yMDI1LTEwY3RpZGh0ZW5hbnQtMQ";
    show_asked(
        rt,
        b"a request of another tenant: ",
        b"\0\0\0\0\0\0\0\0\
          \0\0\0\0\0\0\0\0\
          \x2c\x01\0\
          \x03\0GET\x01\0/\x08\0tenant-2",
        good,
    );
    show(
        rt,
        b"a table cut by one byte: ",
        b"\x35\0\x01\0\x08tenant-1\x0bkid-2025-10whats the Elvish word for frien",
        b"\0\0\0\0\0\0\0\0\
          \0\0\0\0\0\0\0\0\
          \x2c\x01\0\
          \x03\0GET\x01\0/\x08\0tenant-1",
        good,
    );
    show_asked(rt, b"an empty request: ", b"", good);
}

fn texts(rt: &impl Print) {
    show_token(rt, b"the empty text: ", b"");
    let long = [b'='; 5463];
    show_token(rt, b"text of 5,463 characters: ", &long);
    show_token(rt, b"\"_x\": ", b"_x");
}

fn main(rt: HostRuntime) {
    expiries(&rt);
    addresses(&rt);
    prefixes(&rt);
    relays(&rt);
    slashes(&rt);
    rewritten(&rt);
    dotted(&rt);
    methods(&rt);
    sample(&rt);
    keys_and_tags(&rt);
    surroundings(&rt);
    texts(&rt);
}
