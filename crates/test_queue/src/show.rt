// SPDX-License-Identifier: Apache-2.0 AND BSD-3-Clause
// What is told, by its form.
use super::world::{Told, World, word_of};
use forms::put_form;
use record::HostCall;
use step::Answer;
use test_support::form_of;

impl World {
    // The key of an answer's form, which is the table's own text, and its numbers.
    fn told_answer(&self, answer: Answer) -> (u8, [u64; 3]) {
        match answer {
            Answer::Refused(number) => (b'0', [number, 0, 0]),
            Answer::Wants(HostCall::Create { .. }) => (b'1', [0, 0, 0]),
            Answer::Wants(HostCall::Discard { offset, size, host }) => {
                (b'2', [offset.0, size, host.0])
            }
            Answer::Sized => {
                let usable = self.device.config.usable_region_size;
                (b'3', [usable, self.device.placed as u64, self.table[2]])
            }
            Answer::Unserved(reason) => (b'4', [reason, 0, 0]),
            Answer::Served(reply) => {
                let r = reply.response;
                (
                    b'5',
                    [r.resp_type as u64, r.state as u64, reply.used as u64],
                )
            }
            Answer::Done => (b'6', [0, 0, 0]),
        }
    }

    // The key of a form, which is the table's own text, and the numbers of what was told.
    fn told(&self) -> (u8, [u64; 3]) {
        match self.told {
            Told::Nothing => (0, [0, 0, 0]),
            Told::Call(None) => (b'7', [0, 0, 0]),
            Told::Call(Some(answer)) => self.told_answer(answer),
            Told::Changed => (b'!', [0, 0, 0]),
            Told::Number(n) => (b'8', [n, 0, 0]),
            Told::Element(both) => (b'9', [both % 4294967296, both / 4294967296, 0]),
            Told::Response(first, state) => (b'+', [first % 65536, first / 65536, state]),
            Told::Requests(right) => {
                (
                    b'-',
                    [
                        right,
                        self.queue.next_available as u64,
                        self.queue.next_used as u64,
                    ],
                )
            }
        }
    }

    // Puts what was told and, of a call, how it left the queue and the blocks: an unserved chain has one number, all
    // others three.
    pub fn put_told(&self, out: &mut [u8], text: &str) -> usize {
        let (key, [first, second, third]) = self.told();
        let q = self.queue;
        let next = [q.next_available as u64, q.next_used as u64];
        let taken = word_of(q.taken);
        let plugged = self.device.config.plugged_size;
        let form = form_of(text, key).as_bytes();
        if key == b'4' {
            return put_form(
                out,
                form,
                &[first, next[0], next[1], taken, plugged, self.blocks()],
            );
        }
        let v = [
            first,
            second,
            third,
            next[0],
            next[1],
            taken,
            plugged,
            self.blocks(),
        ];
        put_form(out, form, &v)
    }
}
