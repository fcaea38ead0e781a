// SPDX-License-Identifier: Apache-2.0 AND BSD-3-Clause
// Looks at what a call left.
use super::world::{Told, World};
use std::num::wrapping_add_u64;

impl World {
    // The index of the used ring.
    pub fn used_index(&mut self) -> u64 {
        let at = wrapping_add_u64(self.queue.used.0, 2);
        self.memory.get_u16(at)
    }

    // An element of the used ring: its id, and its length as the upper half.
    pub fn used_element(&mut self, entry: u64) -> u64 {
        let at = wrapping_add_u64(self.queue.used.0, 4 + 8 * (entry % 128));
        self.memory.get_u64(at)
    }

    // A response: its type and the six bytes behind it, and its state.
    pub fn response(&mut self, addr: u64) -> Told {
        let first = self.memory.get_u64(addr);
        Told::Response(first, self.memory.get_u16(wrapping_add_u64(addr, 8)))
    }
}
