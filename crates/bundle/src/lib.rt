// Bundles judged: tables, requests and tokens in one input, and a line for each token. Tables and requests
// are kept as places in the input; each line is written behind the last.
#![tactic(auto)]

ghost use Rattle.std.specs.Prelude.{[], ◌+◌, ◌≤◌, length};
ghost use Rattle.answers.specs.Answers.{number_of};
ghost use Rattle.cbor_writing.specs.Placing.{Placed};
ghost use Rattle.basis.specs.Limits.{bundle_most};
ghost use Rattle.bundle.specs.Lines.{line_words, line, lines_from, records_most, enough, LinesWritten};

use answers::Answer;
use basis::{Span, limits};

// Room for the lines of any bundle: 16,384 of at most 27 bytes.
pub const ENOUGH: usize = 442368;

// "allow", or "deny " and the name.
fn put_words(room: &mut [u8], at: usize, answer: Answer) -> usize
    requires { at + length (line_words (number_of answer)) ≤ length room.old }
    ensures { Placed (line_words (number_of answer)) room.old at result room.new }
{
    match answer {
        Answer::Allow => cbor_writing::put_at(room, at, b"allow"),
        _ => {
            let p = cbor_writing::put_at(room, at, b"deny ");
            cbor_writing::put_at(room, p, answer.name().as_bytes())
        }
    }
}

fn put_line(room: &mut [u8], at: usize, answer: Answer) -> usize
    requires { at + length (line (number_of answer)) ≤ length room.old }
    ensures { Placed (line (number_of answer)) room.old at result room.new }
{
    let p = put_words(room, at, answer);
    cbor_writing::put_at(room, p, b"\n")
}

// The lines of an input of at most 65,536 bytes. The loop goes from the end of one record to that of the next, so there
// is no index to count and no slice of records to go through.
fn walk(input: &[u8], room: &mut [u8]) -> usize
    requires { (length input.now ≤ bundle_most) × (enough ≤ length room.old) }
    ensures { Placed (lines_from records_most input.now [] [] 0) room.old 0 result room.new }
{
    let mut p: usize = 0;
    let mut n: usize = 0;
    let mut table = Span { from: 0, to: 0 };
    let mut request = Span { from: 0, to: 0 };
    while p != input.len() {
        match records::record_at(input, p) {
            None => return cbor_writing::put_at(room, n, b"bundle.bad\n"),
            Some(record) => {
                let kind = record.kind;
                let body = record.body;
                if kind == limits::TABLE_KIND {
                    table = body;
                } else if kind == limits::REQUEST_KIND {
                    request = body;
                } else if kind == limits::TOKEN_KIND {
                    let answer = verify::verify(
                        basis::lend(input, table),
                        basis::lend(input, request),
                        basis::lend(input, body),
                    );
                    n = put_line(room, n, answer);
                } else {
                    return cbor_writing::put_at(room, n, b"bundle.bad\n");
                }
                p = body.to;
            }
        }
    }
    n
}

// Writes the lines at the front of the room and says how long they are; in a room that is not enough it writes
// nothing.
pub fn judge_bundle(input: &[u8], room: &mut [u8]) -> Option<usize>
    ensures { LinesWritten input.now room.old result room.new }
{
    if room.len() < ENOUGH {
        return None;
    }
    if limits::BUNDLE_MOST < input.len() {
        return Some(cbor_writing::put_at(room, 0, b"bundle.bad\n"));
    }
    Some(walk(input, room))
}
