// SPDX-License-Identifier: Apache-2.0 AND BSD-3-Clause
// The memory, and the same bytes as the rows have seen them: the two differ where a call wrote and no row has looked.
// A guest address stands `shift` on, modulo 2^64.
use little_endian::{read_u16, read_u64, write_u16, write_u64};
use std::num::wrapping_add_u64;
use test_support::narrow;

// The last places of two and of eight bytes in the memory.
const LAST_U16: usize = 4094;

const LAST_U64: usize = 4088;

#[derive(Clone, Copy)]
pub struct Memory {
    pub bytes: [u8; 4096],
    seen: [u8; 4096],
    pub shift: u64,
}

impl Memory {
    // A memory that nobody wrote, and seen so: each byte is 170.
    pub fn new(shift: u64) -> Memory {
        Memory {
            bytes: [170; 4096],
            seen: [170; 4096],
            shift,
        }
    }

    // Where a guest address stands, or the memory's end where it is past the last place.
    fn place(&self, addr: u64, last: usize) -> usize {
        let at = wrapping_add_u64(addr, self.shift) as usize;
        if last < at { 4096 } else { at }
    }

    // The guest writes.
    pub fn put_u16(&mut self, addr: u64, v: u64) {
        let at = self.place(addr, LAST_U16);
        write_u16(&mut self.bytes, at, narrow(v));
        write_u16(&mut self.seen, at, narrow(v));
    }

    pub fn put_u64(&mut self, addr: u64, v: u64) {
        let at = self.place(addr, LAST_U64);
        write_u64(&mut self.bytes, at, v);
        write_u64(&mut self.seen, at, v);
    }

    // The guest reads, and so has seen it.
    pub fn get_u16(&mut self, addr: u64) -> u64 {
        let at = self.place(addr, LAST_U16);
        let v = read_u16(&self.bytes, at);
        write_u16(&mut self.seen, at, v);
        v as u64
    }

    pub fn get_u64(&mut self, addr: u64) -> u64 {
        let at = self.place(addr, LAST_U64);
        let v = read_u64(&self.bytes, at);
        write_u64(&mut self.seen, at, v);
        v
    }

    // The first eight bytes that are not as they were seen.
    pub fn first_unseen(&self) -> Option<usize> {
        (0..4096).step_by(8).find(|at| read_u64(&self.bytes, *at) != read_u64(&self.seen, *at))
    }
}
