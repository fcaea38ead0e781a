// SPDX-License-Identifier: Apache-2.0 AND BSD-3-Clause
// texts.txt: the lines of a trace as they are read, and the answers as they are put.
use super::{Row, numbers_of};
use forms::{put_form, put_form_at};
use test_support::{front, narrow};
use trace_text::{FirstLine, Line, Op, RangeOp};
use units::{GuestAddr, HostAddr, RegionOffset};

// The byte that a byte of the table stands for: a tab, the end of a line in other systems, and 0 have a stand-in.
fn meant(b: u8) -> u8 {
    match b {
        b'~' => 0,
        b'^' => b'\t',
        b'`' => b'\r',
        _ => b,
    }
}

// Where there is no node, one more than the largest stands for it.
fn put_first(out: &mut [u8], f: FirstLine) -> usize {
    let numbers = [
        f.capacity_mib,
        f.requested_mib,
        f.multi as u64,
        f.node.map_or(65536, |n| n as u64),
        f.boot,
        f.addr.0,
        f.slot,
    ];
    put_form(out, b"first # # # # # # #", &numbers)
}

// A later line: the letter of its kind, and its numbers.
fn put_later(out: &mut [u8], op: Op) -> usize {
    match op {
        Op::Host { ok, addr } => put_form(out, b"h # #", &[ok as u64, addr.0]),
        Op::Range { op, addr, blocks } => {
            let form = match op {
                RangeOp::Plug => b"p # #",
                RangeOp::Unplug => b"u # #",
                RangeOp::State => b"s # #",
            };
            put_form(out, form, &[addr.0, blocks as u64])
        }
        Op::UnplugAll => put_form(out, b"a 0 0", &[]),
        Op::Size { mib } => put_form(out, b"m # 0", &[mib]),
    }
}

// What is read in a line: it stands behind the call's word and one blank.
fn read_line(out: &mut [u8], line: &str) -> usize {
    let mut bytes = [0; 256];
    for (to, b) in bytes.iter_mut().zip(line.bytes()) {
        *to = meant(b);
    }
    match trace_text::read_line(front(&bytes, line.len())) {
        Some(Line::First(f)) => put_first(out, f),
        Some(Line::Later(op)) => put_later(out, op),
        None => put_form(out, b"13", &[]),
    }
}

// What an answer is put as, by the call's first letter: it is the table's own text, so it is matched as it stands.
fn put(room: &mut [u8], kind: Option<&u8>, v: Row) -> usize {
    match kind {
        Some(b'c') => answer_text::put_create(room, GuestAddr(v[1]), v[2], v[3]),
        Some(b'd') => answer_text::put_discard(room, RegionOffset(v[1]), v[2], HostAddr(v[3])),
        Some(b'g') => {
            answer_text::put_response(room, narrow(v[1]), narrow(v[2]), v[3], v[4], v[5])
        }
        Some(b'r') => answer_text::put_refusal(room, v[1]),
        _ => answer_text::put_sized(room, v[1], v[2]),
    }
}

pub fn answer(out: &mut [u8], call: &str) -> usize {
    if let Some(line) = call.strip_prefix("line ") {
        return read_line(out, line);
    }
    let v = numbers_of(call);
    let room = v[0] as usize;
    if out.len() < room {
        return 0;
    }
    out[..room].fill(b'.');
    let n = put(&mut out[..room], call.as_bytes().first(), v);
    put_form_at(out, room, b" #", &[n as u64])
}
