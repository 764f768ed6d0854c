// Judges the bundle on standard input and writes its lines to standard output. One byte more is read than a
// bundle may have, so that a longer one is seen to be longer. Where a read fails nothing is judged, since what
// came before may be a part of a bundle: the one line is "bundle.bad".
#![tactic(auto)]

ghost use Rattle.std.specs.Prelude.{length};
ghost use Rattle.judge.specs.Reading.{Came};
ghost use Rattle.judge.specs.Lined.{Lined};

use basis::limits;
use std::io::{self, Read};

// Reads until the input ends or the room is full, and says how many bytes came. By `read`, turn by turn: `read_exact`
// does not say how many came before the end, and `read_to_end` asks for a heap.
fn read_input(input: &mut impl Read, room: &mut [u8]) -> io::Result<usize>
    ensures { Came result (length room.new) }
{
    let mut n: usize = 0;
    while n < room.len() {
        let k = input.read(&mut room[n..])?;
        if k == 0 {
            break;
        }
        n += k;
    }
    Ok(n)
}

// Writes the text to standard output, or says that it could not.
fn write_lines(rt: &(impl Print + Eprint), text: &[u8]) {
    if rt.write_all(text).is_err() {
        let _ = rt.eprintln("judge: standard output could not be written");
    }
}

// The bundle's lines at the front of the room, which is enough for any, and how many bytes they have.
fn lines_of(input: &[u8], room: &mut [u8; bundle::ENOUGH]) -> usize
    ensures { Lined input.now result room.new }
{
    bundle::judge_bundle(input, room).unwrap()
}

fn judge_input(rt: &(impl Print + Eprint), input: &[u8]) {
    let mut lines = [0u8; bundle::ENOUGH];
    let n = lines_of(input, &mut lines);
    write_lines(rt, &lines[..n]);
}

fn main(rt: HostRuntime) {
    let mut input = [0u8; limits::BUNDLE_MOST + 1];
    let Ok(n) = read_input(&mut rt.stdin(), &mut input) else {
        let _ = rt.eprintln("judge: standard input could not be read");
        return write_lines(&rt, b"bundle.bad\n");
    };
    judge_input(&rt, &input[..n]);
}
