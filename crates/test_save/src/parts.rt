// SPDX-License-Identifier: Apache-2.0 AND BSD-3-Clause
// Parts of a row, its fields, and what is lent to a call.
use bitmap::set_range;
use forms::put_form;
use refusal::Refusal;
use save::Fields;

// The numbers of a row, in their order, and 0 where there are no more. Where there are fields they come first, then
// three runs of blocks.
pub type Row = [u64; 17];

// What a byte is that a call may not touch: no text and no old byte has it.
pub const UNTOUCHED: u8 = 238;

// A row has | for a newline, ^ for a carriage return and ~ for a tab; this takes either to the other.
fn other(b: u8) -> u8 {
    match b {
        b'|' => b'\n',
        b'\n' => b'|',
        b'^' => b'\r',
        b'\r' => b'^',
        b'~' => b'\t',
        b'\t' => b'~',
        _ => b,
    }
}

pub fn swap(bytes: &mut [u8]) {
    for byte in bytes.iter_mut() {
        *byte = other(*byte);
    }
}

// Whether all bytes from a place on are as they were.
pub fn untouched(bytes: &[u8], from: usize, was: u8) -> bool {
    bytes.iter().skip(from).all(|b| *b == was)
}

pub fn fields_of(v: Row) -> Fields {
    Fields {
        block: v[0],
        start: v[1],
        region: v[2],
        requested: v[3],
        usable: v[4],
        plugged: v[5],
    }
}

pub fn lay(bitmap: &mut [u8], v: Row) {
    for (first, count) in [(v[6], v[7]), (v[8], v[9]), (v[10], v[11])] {
        set_range(bitmap, first as usize, count as usize, true);
    }
}

pub fn touched(out: &mut [u8]) -> usize {
    put_form(out, b"touched", &[])
}

// A refusal, as an answer; `touched` where the call changed something.
pub fn refused(out: &mut [u8], refusal: Refusal, is_untouched: bool) -> usize {
    if is_untouched {
        return put_form(out, b"refuse=#", &[refusal.number()]);
    }
    touched(out)
}
