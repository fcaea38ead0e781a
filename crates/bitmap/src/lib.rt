// SPDX-License-Identifier: Apache-2.0 AND BSD-3-Clause
// The plugged blocks as a packed bitmap, lent as bytes: block 8 * j + k is bit k of byte j.
// A range is tested and put by whole bytes, with single bits at its ends. A loop over blocks stands at bit k of byte j:
// a count counts down what is left, and a search ends at `end`. No block number is made that could wrap.
#![tactic(auto)]

ghost use Rattle.std.specs.Prelude.{◌≡◌, ◌+◌, ◌-◌, ◌*◌, ◌/◌, ◌%◌, ◌^◌, ◌≤◌, ◌<◌, length};
ghost use Rattle.bitmap.specs.Blocks.{low_bits, blocks, block_at, range, every, all_are, ones, fill, Filled};
ghost use Rattle.bitmap.specs.Blocks.{next_in_state, next_set, next_clear};
ghost use Rattle.bitmap.specs.Whole.{whole, wholes};

use little_endian::read_u64;

// Bit k of a byte.
fn bit(b: u8, k: usize) -> bool
    requires { k < 8 }
    ensures { result ≡ block_at (low_bits 8 b) k }
{
    (b >> k) % 2 == 1
}

// The byte whose blocks are all v, and eight of them as one number: of two types, and a line each.
fn whole_byte(v: bool) -> u8
    ensures { result ≡ whole v }
{
    if v { 255 } else { 0 }
}

fn whole_word(v: bool) -> u64
    ensures { result ≡ wholes 8 v }
{
    if v { u64::MAX } else { 0 }
}

// The n bits from bit k on.
fn mask(k: usize, n: usize) -> u8
    requires { k + n ≤ 8 }
    ensures { result ≡ 2 ^ (n + k) - 2 ^ k }
{
    let one: usize = 1;
    (((one << n) - one) << k) as u8
}

// The byte with the n bits from bit k on put to v.
fn put(b: u8, k: usize, n: usize, v: bool) -> u8
    requires { k + n ≤ 8 }
    ensures { low_bits 8 result ≡ fill (low_bits 8 b) k n v }
{
    let m = mask(k, n);
    b & !m | whole_byte(v) & m
}

// Whether the n bits from bit k on are v.
fn are(b: u8, k: usize, n: usize, v: bool) -> bool
    requires { k + n ≤ 8 }
    ensures { result ≡ all_are (low_bits 8 b) k n v }
{
    let m = mask(k, n);
    b & m == whole_byte(v) & m
}

// Whether each block of these bytes is v: eight bytes at a time, then one. The first loop's test is the one that
// `read_u64` makes, so the compiler drops the second.
fn bytes_are(bytes: &[u8], v: bool) -> bool
    ensures { result ≡ every v (blocks bytes.now) }
{
    let word = whole_word(v);
    let byte = whole_byte(v);
    let mut j: usize = 0;
    if 8 <= bytes.len() {
        while j < bytes.len() - 7 {
            if read_u64(bytes, j) != word {
                return false;
            }
            j += 8;
        }
    }
    while j < bytes.len() {
        if bytes[j] != byte {
            return false;
        }
        j += 1;
    }
    true
}

// Puts the blocks of the bytes from `from` up to, not including, `to` in the state v.
fn put_bytes(bitmap: &mut [u8], from: usize, to: usize, v: bool)
    requires { (from ≤ to) × (to ≤ length bitmap.old) }
    ensures { Filled bitmap.old bitmap.new (8 * from) (8 * (to - from)) v }
{
    let byte = whole_byte(v);
    for j in from..to {
        bitmap[j] = byte;
    }
}

// A range that goes past a byte's end, in three parts: `head` blocks up to byte `from`, the bytes from there up to, not
// including, byte `to`, and `tail` blocks of byte `to`.
#[derive(Drop)]
struct Parts {
    head: usize,
    from: usize,
    to: usize,
    tail: usize,
}

fn parts_of(first: usize, count: usize) -> Parts
    requires { 8 - first % 8 < count }
    ensures head_value { (first + result.head ≡ 8 * result.from) × (result.head < 8) }
    ensures count_value { (first + count ≡ 8 * result.to + result.tail) × (result.tail < 8) }
{
    let k = first % 8;
    let head = (8 - k) % 8;
    let from = first / 8 + (k + 7) / 8;
    let left = count - head;
    Parts {
        head: head,
        from: from,
        to: from + left / 8,
        tail: left % 8,
    }
}

// Whether a block is plugged. Past the end none is.
pub fn is_set(bitmap: &[u8], block: usize) -> bool
    ensures { result ≡ block_at (blocks bitmap.now) block }
{
    let j = block / 8;
    if j < bitmap.len() {
        bit(bitmap[j], block % 8)
    } else {
        false
    }
}

// Whether each block of a range that exists is in this state: `virtio_mem_check_bitmap`.
pub fn all_in_state(bitmap: &[u8], first: usize, count: usize, plugged: bool) -> bool
    ensures { result ≡ all_are (blocks bitmap.now) first count plugged }
{
    let j = first / 8;
    let k = first % 8;
    if bitmap.len() <= j {
        return true;
    }
    if count <= 8 - k {
        return are(bitmap[j], k, count, plugged);
    }
    let p = parts_of(first, count);
    if !are(bitmap[j], k, p.head, plugged) {
        return false;
    }
    let from = p.from;
    let to = p.to;
    let end = to.min(bitmap.len());
    if !bytes_are(&bitmap[from..end], plugged) {
        return false;
    }
    if bitmap.len() <= to {
        return true;
    }
    are(bitmap[to], 0, p.tail, plugged)
}

// Puts each block of a range that exists in this state: `virtio_mem_set_bitmap`.
pub fn set_range(bitmap: &mut [u8], first: usize, count: usize, plugged: bool)
    ensures { Filled bitmap.old bitmap.new first count plugged }
{
    let j = first / 8;
    let k = first % 8;
    if bitmap.len() <= j {
        return;
    }
    if count <= 8 - k {
        bitmap[j] = put(bitmap[j], k, count, plugged);
        return;
    }
    let p = parts_of(first, count);
    bitmap[j] = put(bitmap[j], k, p.head, plugged);
    let to = p.to;
    let end = to.min(bitmap.len());
    put_bytes(bitmap, p.from, end, plugged);
    if bitmap.len() <= to {
        return;
    }
    bitmap[to] = put(bitmap[to], 0, p.tail, plugged);
}

// The lowest block in this state that exists from `from` up to, not including, `end`. A byte without one is passed at
// once, so the steps are of one and of eight blocks, which no iterator takes: j, k and `at` go on by hand.
fn next_of(bitmap: &[u8], from: usize, end: usize, v: bool) -> Option<usize>
    ensures { result ≡ next_in_state v (blocks bitmap.now) from end }
{
    let passed = whole_byte(!v);
    let mut j = from / 8;
    let mut k = from % 8;
    let mut at = from;
    while j < bitmap.len() {
        if end <= at {
            return None;
        }
        if (k == 0) & (bitmap[j] == passed) & (8 <= end - at) {
            j += 1;
            at += 8;
        } else {
            if bit(bitmap[j], k) == v {
                return Some(at);
            }
            j += (k + 1) / 8;
            k = (k + 1) % 8;
            at += 1;
        }
    }
    None
}

// The lowest plugged block from `from` up to, not including, `end`.
pub fn next_set(bitmap: &[u8], from: usize, end: usize) -> Option<usize>
    ensures { result ≡ next_set (blocks bitmap.now) from end }
{
    next_of(bitmap, from, end, true)
}

// The lowest block that exists and is not plugged, from `from` up to, not including, `end`.
pub fn next_clear(bitmap: &[u8], from: usize, end: usize) -> Option<usize>
    ensures { result ≡ next_clear (blocks bitmap.now) from end }
{
    next_of(bitmap, from, end, false)
}

// How many blocks of a range are plugged. Counted down by hand: a range may end past the largest number, so that no
// block number is made.
pub fn count_set(bitmap: &[u8], first: usize, count: usize) -> usize
    ensures { result ≡ ones (range (blocks bitmap.now) first count) }
{
    let mut j = first / 8;
    let mut k = first % 8;
    let mut left = count;
    let mut set: usize = 0;
    while j < bitmap.len() {
        if left == 0 {
            return set;
        }
        if bit(bitmap[j], k) {
            set += 1;
        }
        j += (k + 1) / 8;
        k = (k + 1) % 8;
        left -= 1;
    }
    set
}
