// SPDX-License-Identifier: Apache-2.0 AND BSD-3-Clause
// Texts and old bytes: measured, written, read, and moved into the other form.
use super::parts::{Row, UNTOUCHED, fields_of, lay, refused, swap, touched, untouched};
use bitmap::count_set;
use forms::{put_form, put_form_at};
use little_endian::{copy, read_u64};
use refusal::Refusal;
use save::Fields;
use test_support::front;
use text::put;
use units::MemTool;

// Every bit of a bitmap that is read onto is set before.
pub const ONES: u8 = 255;

// A text that was written into a buffer, as an answer.
pub fn told_text(out: &mut [u8], wrote: Result<u64, Refusal>, buffer: &[u8]) -> usize {
    match wrote {
        Err(refusal) => refused(out, refusal, untouched(buffer, 0, UNTOUCHED)),
        Ok(n) => {
            if !untouched(buffer, n as usize, UNTOUCHED) {
                return touched(out);
            }
            copy(out, front(buffer, n as usize));
            swap(out);
            n as usize
        }
    }
}

// write: columns bytes and room.
pub fn write(out: &mut [u8], v: Row) -> usize {
    let mut bitmap = [0; 32776];
    let mut buffer = [UNTOUCHED; 512];
    lay(&mut bitmap, v);
    let Some(room) = buffer.get_mut(..v[13] as usize) else {
        return 0;
    };
    let wrote = save::write(fields_of(v), front(&bitmap, v[12] as usize), room);
    told_text(out, wrote, &buffer)
}

pub fn told_length(out: &mut [u8], long: Result<u64, Refusal>) -> usize {
    match long {
        Ok(n) => put_form(out, b"length=#", &[n]),
        Err(refusal) => refused(out, refusal, true),
    }
}

// length: column bytes.
pub fn length(out: &mut [u8], v: Row) -> usize {
    let mut bitmap = [0; 32776];
    lay(&mut bitmap, v);
    told_length(
        out,
        save::text_length(fields_of(v), front(&bitmap, v[12] as usize)),
    )
}

fn put_fields(out: &mut [u8], f: Fields) -> usize {
    put_form(
        out,
        b"start=# region=# requested=# usable=# plugged=#",
        &[f.start, f.region, f.requested, f.usable, f.plugged],
    )
}

// The fields, the first 64 blocks, and how many blocks of the region are set.
fn told_state(out: &mut [u8], f: Fields, bitmap: &[u8]) -> usize {
    let all = MemTool::blocks_in(f.region, f.block) as usize;
    if !untouched(bitmap, all / 8, ONES) {
        return touched(out);
    }
    let to = put_fields(out, f);
    put_form_at(
        out,
        to,
        b" blocks=# set=#",
        &[read_u64(bitmap, 0), count_set(bitmap, 0, all) as u64],
    )
}

// What was read, as an answer.
fn told_read(out: &mut [u8], got: Result<Fields, Refusal>, bitmap: &[u8]) -> usize {
    match got {
        Err(refusal) => refused(out, refusal, untouched(bitmap, 0, ONES)),
        Ok(f) => told_state(out, f, bitmap),
    }
}

// into: columns room and most, and a text.
pub fn read(out: &mut [u8], v: Row, s: &[u8]) -> usize {
    let mut bitmap = [ONES; 32776];
    let Some(room) = bitmap.get_mut(..v[0] as usize) else {
        return 0;
    };
    let got = save::read(s, v[1] as usize, room);
    told_read(out, got, &bitmap)
}

// text: a text, checked and read, with the same refusal or none; there is no answer where there are two.
pub fn check(out: &mut [u8], s: &[u8]) -> usize {
    let mut bitmap = [ONES; 32776];
    let got = save::read(s, 262144, &mut bitmap);
    if got.err() != save::check(s).err() {
        return 0;
    }
    told_read(out, got, &bitmap)
}

// Sets `count` bytes from `first` on to b.
fn fill(bytes: &mut [u8], first: u64, count: u64, b: u8) {
    for byte in bytes.iter_mut().skip(first as usize).take(count as usize) {
        *byte = b;
    }
}

// The old bytes of a row.
fn lay_old(old: &mut [u8], v: Row) {
    fill(old, v[6], v[7], 1);
    fill(old, v[8], v[9], 1);
    fill(old, v[10], v[11], 1);
    fill(old, v[15], 1, (v[16] % 256) as u8);
}

// new: columns bytes, room, scratch, at and is.
pub fn to_new(out: &mut [u8], v: Row) -> usize {
    let mut old = [0; 512];
    let mut scratch = [ONES; 32776];
    let mut buffer = [UNTOUCHED; 512];
    lay_old(&mut old, v);
    let Some(room) = buffer.get_mut(..v[13] as usize) else {
        return 0;
    };
    let Some(lent) = scratch.get_mut(..v[14] as usize) else {
        return 0;
    };
    let wrote = old_form::to_new(fields_of(v), front(&old, v[12] as usize), lent, room);
    let to = told_text(out, wrote, &buffer);
    put_form_at(out, to, b" scratch=#", &[read_u64(&scratch, 0)])
}

// Old bytes, as digits.
fn put_old(out: &mut [u8], at: usize, old: &[u8]) -> usize {
    let mut to = at;
    for byte in old {
        to = put(out, to, b'0' + byte % 10);
    }
    to
}

// back: columns scratch and room, and a text.
pub fn to_old(out: &mut [u8], v: Row, s: &[u8]) -> usize {
    let mut scratch = [ONES; 32776];
    let mut old = [UNTOUCHED; 512];
    let Some(lent) = scratch.get_mut(..v[0] as usize) else {
        return 0;
    };
    let Some(room) = old.get_mut(..v[1] as usize) else {
        return 0;
    };
    let got = old_form::to_old(s, lent, room);
    told_old(out, got, &old, untouched(&scratch, 0, ONES))
}

fn told_old(out: &mut [u8], got: Result<Fields, Refusal>, old: &[u8], same: bool) -> usize {
    match got {
        Err(refusal) => refused(out, refusal, same & untouched(old, 0, UNTOUCHED)),
        Ok(f) => {
            let all = MemTool::blocks_in(f.region, f.block) as usize;
            if !untouched(old, all, UNTOUCHED) {
                return touched(out);
            }
            let at = put_fields(out, f);
            let to = put_form_at(out, at, b" old=", &[]);
            put_old(out, to, front(old, all))
        }
    }
}
