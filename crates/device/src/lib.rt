// SPDX-License-Identifier: Apache-2.0 AND BSD-3-Clause
// The device's one door: every entry, and the types that they take and give.
// 1. Make: `Mem::new` gives a `Device`, a record that the caller keeps, or a `Refusal`.
// 2. Place: `place` takes the record, and a bitmap and a map table that the caller keeps beside it.
//    This call and all that follow give `Answered`: the record to keep from now on, and an `Answer`.
// 3. Answer the host: after `Wants`, do what the `HostCall` asks and tell `host_answer` how it went; it may want more.
//    Until then every call but those of the config is refused with 7.
// 4. Serve: `request` takes the head of a chain in guest memory. `Served` and `Unserved` end it: report the head used,
//    with the length of the `Reply` or 0. The response is in guest memory by then.
// 5. `set_requested_size` says how much memory the guest is to have; `read_config`, `write_config` are the guest's own.
// Nothing has to hold of what is lent: each call tests it first, and gives `Refused` with the `Refusal`.
#![tactic(auto)]

ghost use Rattle.std.specs.Prelude.{[]};
ghost use Rattle.step.specs.Promise.{lent, read_on, write_on, Steps};

pub use chain::NoRequest;
pub use change::Reason;
pub use making::Mem;
pub use placing::{place, set_requested_size};
use record::shaped;
pub use record::{Device, HostCall};
pub use refusal::Refusal;
pub use serving::{host_answer, request};
use step::refuse_as;
pub use step::{Answer, Answered, Reply};
pub use units::{GuestAddr, HostAddr, RegionOffset};
pub use wire::VirtioMemResp;

// Reads the config from `offset` on into `data`: no byte past its end, and none past the buffer's.
pub fn read_config(d: Device, offset: u64, data: &mut [u8]) -> Answered
    ensures { Steps d (read_on offset) (lent [] [] «data».old) (lent [] [] «data».new) result }
{
    if !shaped(d) {
        return refuse_as(d, Refusal::NoShape);
    }
    let config = d.config;
    wire::read_config(config, offset, data);
    Answered {
        device: d,
        answer: Answer::Done,
    }
}

// A write of the config does nothing.
pub fn write_config(d: Device, offset: u64, data: &[u8]) -> Answered
    ensures { Steps d (write_on offset) (lent [] [] «data».now) (lent [] [] «data».now) result }
{
    if !shaped(d) {
        return refuse_as(d, Refusal::NoShape);
    }
    Answered {
        device: d,
        answer: Answer::Done,
    }
}
