// SPDX-License-Identifier: Apache-2.0 AND BSD-3-Clause
// Requests one after the other, each looked at when its head is reported. Request n has the head 0, 2 or 4, by n modulo
// 3, so that an entry of the rings, n modulo 128, never gets the same head twice in a row; the head 4 is no request,
// and its length is 0.
use super::calls::Call;
use super::world::{Told, World, word_of};

// The element of request n: the length is its upper half.
fn element_of(n: u64) -> u64 {
    match n % 3 {
        0 => 10 << 32,
        1 => (10 << 32) + 2,
        _ => 4,
    }
}

impl World {
    // Request n, and whether it is reported, and counted by both indices.
    fn one(&mut self, n: u64) -> bool {
        self.offer(n, 2 * (n % 3), n % 65536 + 1);
        self.call(Call::Serve);
        let next = (n % 65536 + 1) % 65536;
        (self.used_element(n) == element_of(n))
            & (self.used_index() == next)
            & (self.queue.next_available as u64 == next)
            & (self.queue.next_used as u64 == next)
            & (word_of(self.queue.taken) == 0)
    }

    // So many requests, up to the first that goes wrong.
    pub fn many(&mut self, count: u64) {
        let mut right = count;
        for n in 0..count {
            if !self.one(n) {
                right = n;
                break;
            }
        }
        self.told = Told::Requests(right);
    }
}
