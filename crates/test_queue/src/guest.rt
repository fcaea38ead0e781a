// SPDX-License-Identifier: Apache-2.0 AND BSD-3-Clause
// What the guest writes: descriptors, requests and the available ring.
use super::memory::Memory;
use super::world::{Numbers, World};
use std::num::wrapping_add_u64;

// A descriptor's length, flags and next index, as they lie behind its address.
pub fn rest_of(length: u64, flags: u64, next: u64) -> u64 {
    length % 4294967296 + flags % 65536 * 4294967296 + next % 65536 * 281474976710656
}

impl Memory {
    // A request's type, its first block and how many it is about.
    fn put_request(&mut self, at: u64, req_type: u64, block: u64, blocks: u64) {
        let addr = 4294967296 + block % 65536 * 4194304;
        self.put_u64(at, req_type);
        self.put_u64(wrapping_add_u64(at, 8), addr);
        self.put_u64(wrapping_add_u64(at, 16), blocks);
    }
}

impl World {
    // A descriptor at an index of the table.
    pub fn put_link(&mut self, index: u64, addr: u64, rest: u64) {
        let at = wrapping_add_u64(self.queue.descriptors.0, 16 * (index % 128));
        self.memory.put_u64(at, addr);
        self.memory.put_u64(wrapping_add_u64(at, 8), rest);
    }

    // A chain by the numbers of its row: two descriptors, at the head and the next index, and the request.
    pub fn put_chain(&mut self, v: Numbers) {
        let [head, request, req_type, block, blocks, status] = v;
        let second = (head % 128 + 1) % 128;
        self.put_link(head, request, rest_of(24, 1, second));
        self.put_link(second, status, rest_of(10, 2, 0));
        self.memory.put_request(request, req_type, block, blocks);
    }

    // A head in the available ring, and the ring's index.
    pub fn offer(&mut self, entry: u64, head: u64, index: u64) {
        let available = self.queue.available.0;
        self.memory
            .put_u16(wrapping_add_u64(available, 4 + 2 * (entry % 128)), head);
        self.memory.put_u16(wrapping_add_u64(available, 2), index);
    }
}
