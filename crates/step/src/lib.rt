// SPDX-License-Identifier: Apache-2.0 AND BSD-3-Clause
// What every call of the device ends in: the answers, the refusals that several calls share, the usable size worked
// out, and the response to the guest.
#![tactic(auto)]

ghost use Rattle.std.specs.Prelude.{◌≡◌, cond, ◌+◌, ◌*◌, ◌/◌, []};
ghost use Rattle.units.specs.Numbers.{blocks_in};
ghost use Rattle.rows.specs.Rows.{rows_in};
ghost use Rattle.step.specs.Step.{tables_fit, ready_refusal, unplaced_refusal, pending_refusal, sized_of};
ghost use Rattle.refusal.specs.Refusal.{number};
ghost use Rattle.change.specs.Why.{why};
ghost use Rattle.step.specs.Step.{served, verdict, ack, nack, error};
ghost use Rattle.step.specs.Promise.{lent, Does};

mod ready;

use chain::deliver;
use change::Reason;
pub use ready::Shaped;
use record::{Device, HostCall, is_idle, shaped};
use refusal::Refusal;
use resize::{grown_size, new_size};
use rows::ROW_WORDS;
use units::{GuestAddr, MemTool, map_regions};
use wire::VirtioMemResp;

// The types of a response (R7.4).
const ACK: u16 = 0;

const NACK: u16 = 1;

const ERROR: u16 = 3;

// What a request comes to: its response and, where that is ERROR, the number of the reason (R10.17), else 0.
#[derive(Clone, Copy)]
pub struct Verdict {
    pub response: VirtioMemResp,
    pub why: u64,
}

impl Verdict {
    // ACK, with state 0 (R10.2).
    pub fn ack() -> Verdict
        ensures { result ≡ ack }
    {
        Verdict {
            response: VirtioMemResp {
                resp_type: ACK,
                state: 0,
            },
            why: 0,
        }
    }

    // NACK, with state 0.
    pub fn nack() -> Verdict
        ensures { result ≡ nack }
    {
        Verdict {
            response: VirtioMemResp {
                resp_type: NACK,
                state: 0,
            },
            why: 0,
        }
    }

    // ERROR, with state 0 and its reason.
    pub fn error(reason: Reason) -> Verdict
        ensures { result ≡ error (why reason) }
    {
        Verdict {
            response: VirtioMemResp {
                resp_type: ERROR,
                state: 0,
            },
            why: reason.number(),
        }
    }

    // The same with a state, as a state request is answered (R10.15).
    pub fn with_state(self, state: u16) -> Verdict
        ensures { result ≡ verdict self.response.resp_type state self.why }
    {
        let mut response = self.response;
        response.state = state;
        Verdict {
            response: response,
            why: self.why,
        }
    }
}

// The end of a request: its response, also where it could not be delivered, the used length, and why it is an ERROR, as
// in a verdict.
#[derive(Clone, Copy)]
pub struct Reply {
    pub response: VirtioMemResp,
    pub used: u32,
    pub why: u64,
}

// The answer of a call, in numbers, as words and printed lines tell it: `respond` and `refuse` promise of any number.
#[derive(Clone, Copy)]
pub enum Answer {
    // Refused with a number (R1); 10, creation failed, too.
    Refused(u64),
    // The host is asked, and the call goes on with its answer.
    Wants(HostCall),
    // Done: the usable size is worked out.
    Sized,
    // A chain that is no request, used with length 0: its reason, 21 to 27, or 0 for an unknown type.
    Unserved(u64),
    // A request that has ended.
    Served(Reply),
    // A config read or write.
    Done,
}

// A call's answer, with the record as it is then.
#[derive(Clone, Copy)]
pub struct Answered {
    pub device: Device,
    pub answer: Answer,
}

// How many bytes of a bitmap the blocks of a region take.
fn bytes_for(region: u64, block_size: u64) -> u64
    ensures { result ≡ (blocks_in block_size region + 7) / 8 }
{
    let blocks = MemTool::blocks_in(region, block_size);
    if blocks % 8 == 0 {
        blocks / 8
    } else {
        blocks / 8 + 1
    }
}

// Whether a bitmap of `bytes` bytes and a map table of `words` words are long enough (11).
pub fn tables_fit(d: Device, bytes: usize, words: usize) -> bool
    ensures { result ≡ tables_fit d (8 * bytes) (rows_in words) }
{
    let region = d.config.region_size;
    let needed = bytes_for(region, d.config.block_size);
    let rows = map_regions(region, d.several);
    (needed <= bytes as u64) & (rows * ROW_WORDS <= words as u64)
}

// Whether a request or a size change is admitted: 12, 7, 5, 11 (R2.3, R2.4).
pub fn ready_refusal(d: Device, bytes: usize, words: usize) -> Result<(), Refusal>
    ensures { result ≡ ready_refusal d (8 * bytes) (rows_in words) }
{
    if !shaped(d) {
        return Err(Refusal::NoShape);
    }
    let pending = d.pending;
    if !is_idle(pending) {
        return Err(Refusal::CallPending);
    }
    if !d.placed {
        return Err(Refusal::NotPlaced);
    }
    if !tables_fit(d, bytes, words) {
        return Err(Refusal::TooShort);
    }
    Ok(())
}

// Whether placing is admitted to its own tests: 12, 7, 6, 11 (R2.2).
pub fn unplaced_refusal(d: Device, bytes: usize, words: usize) -> Result<(), Refusal>
    ensures { result ≡ unplaced_refusal d (8 * bytes) (rows_in words) }
{
    if !shaped(d) {
        return Err(Refusal::NoShape);
    }
    let pending = d.pending;
    if !is_idle(pending) {
        return Err(Refusal::CallPending);
    }
    if d.placed {
        return Err(Refusal::AlreadyPlaced);
    }
    if !tables_fit(d, bytes, words) {
        return Err(Refusal::TooShort);
    }
    Ok(())
}

// Whether a host answer is looked at: 12, 8, 11 (R2.5).
pub fn pending_refusal(d: Device, bytes: usize, words: usize) -> Result<(), Refusal>
    ensures { result ≡ pending_refusal d (8 * bytes) (rows_in words) }
{
    if !shaped(d) {
        return Err(Refusal::NoShape);
    }
    let pending = d.pending;
    if is_idle(pending) {
        return Err(Refusal::NothingPending);
    }
    if !tables_fit(d, bytes, words) {
        return Err(Refusal::TooShort);
    }
    Ok(())
}

// The record with its usable size worked out, and placed.
pub fn sized(d: Device) -> Device
    ensures { result ≡ sized_of d }
{
    let config = d.config;
    let new = new_size(
        config.region_size,
        config.requested_size,
        d.alignment,
        config.block_size,
    );
    let usable = grown_size(config.usable_region_size, new);
    let mut sized = d;
    sized.config.usable_region_size = usable;
    sized.placed = true;
    sized
}

// The used length of a response that was delivered, or was not.
fn used_length(delivered: bool) -> u32
    ensures { result ≡ cond delivered 10 0 }
{
    if delivered { 10 } else { 0 }
}

// Ends a request: the response goes to the status address, wholly or not at all.
pub fn respond(
    d: Device,
    mem: &mut [u8],
    base: GuestAddr,
    status: GuestAddr,
    verdict: Verdict,
) -> Answered
    ensures { Does (served verdict status.0) d base (lent [] [] mem.old) (lent [] [] mem.new) result }
{
    let response = verdict.response;
    let reply = Reply {
        response: response,
        used: used_length(deliver(mem, base, status, response)),
        why: verdict.why,
    };
    Answered {
        device: d,
        answer: Answer::Served(reply),
    }
}

// A call that is refused changes nothing.
pub fn refuse(d: Device, number: u64) -> Answered
    ensures { result ≡ record { device = d; answer = Answer.Refused number } }
{
    Answered {
        device: d,
        answer: Answer::Refused(number),
    }
}

// The same with a refusal of the law.
pub fn refuse_as(d: Device, refusal: Refusal) -> Answered
    ensures { result ≡ record { device = d; answer = Answer.Refused (number refusal) } }
{
    refuse(d, refusal.number())
}
