// SPDX-License-Identifier: Apache-2.0 AND BSD-3-Clause
// The calls.
use super::world::{Told, World};
use step::Answer;
use units::HostAddr;

#[derive(Clone, Copy)]
pub enum Call {
    Serve,
    Host { ok: bool, addr: u64 },
}

impl World {
    // The call with as much as is lent to it, where there is so much; what it left, and what it told.
    pub fn call(&mut self, call: Call) {
        self.told = Told::Call(Some(Answer::Done));
        let Some(bitmap) = self.bitmap.get_mut(..self.bytes) else {
            return;
        };
        let Some(table) = self.table.get_mut(..self.words) else {
            return;
        };
        let Some(mem) = self.memory.bytes.get_mut(self.from..self.to) else {
            return;
        };
        let t = match call {
            Call::Serve => queue::serve_next(
                self.device,
                self.queue,
                bitmap,
                table,
                mem,
                self.base,
            ),
            Call::Host { ok, addr } => {
                queue::host_answer(
                    self.device,
                    self.queue,
                    bitmap,
                    table,
                    mem,
                    self.base,
                    ok,
                    HostAddr(addr),
                )
            }
        };
        self.device = t.device;
        self.queue = t.queue;
        self.told = Told::Call(t.answer);
    }

    // Whether a call is to change nothing: it was refused, but with 10, or found no head.
    fn is_refusal(&self) -> bool {
        match self.told {
            Told::Call(Some(Answer::Refused(number))) => number != 10,
            Told::Call(None) => true,
            _ => false,
        }
    }

    // A call; one that is to change nothing and did tells so.
    pub fn make(&mut self, call: Call) {
        let before = self.state();
        self.call(call);
        let changed = before != self.state() || self.memory.first_unseen().is_some();
        if changed && self.is_refusal() {
            self.told = Told::Changed;
        }
    }
}
