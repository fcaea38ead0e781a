// SPDX-License-Identifier: Apache-2.0 AND BSD-3-Clause
// The device on its queue: a call takes one head, and reports it used when its request has ended.
#![tactic(auto)]

ghost use Rattle.std.specs.Prelude.{◌≡◌, ◌*◌, ◌/◌, length};
ghost use Rattle.step.specs.Promise.{lent};
ghost use Rattle.queue.specs.Queue.{discarding, queue_ok, took_head, gave_back, ending_of, Settles, turned};
ghost use Rattle.queue.specs.Queue.{next_unless, none_told, taking_of, can_report, outside_refusal, queue_refusal};
ghost use Rattle.queue.specs.Queue.{serve_next, host_answers, TakesTurn};

use record::{Device, Pending, shaped};
use refusal::Refusal;
use rings::{Queue, index_after, next_head, report, rings_inside};
use serving::request;
use step::{Answer, ready_refusal, tables_fit};
use units::{GuestAddr, HostAddr};

// A call's answer, with the record and the queue as they are then.
#[derive(Clone, Copy)]
pub struct Turn {
    pub device: Device,
    pub queue: Queue,
    pub answer: Option<Answer>,
}

// What becomes of a head: it stays where it was, it is out, or it is reported used with a length.
#[derive(Clone, Copy)]
pub enum Ending {
    Stays,
    Out,
    Used(u32),
}

// What a call finds before a head is walked: the head, or what it tells where it takes none. No Result: to tell that no
// head is there is no error.
#[derive(Clone, Copy)]
pub enum Taking {
    Walk(u16),
    NoHead(Option<Answer>),
}

// Whether a discard is pending.
fn discards(pending: Pending) -> bool
    ensures { result ≡ discarding pending }
{
    matches!(
        pending,
        Pending::Discard { .. } | Pending::DiscardOne { .. }
    )
}

// The queue's part of 12: a head is out only while a discard is pending.
fn queue_ok(taken: Option<u16>, pending: Pending) -> bool
    ensures { result ≡ queue_ok taken pending }
{
    match taken {
        None => true,
        Some(_) => discards(pending),
    }
}

// The queue with a head taken: it is out.
pub fn took_head(q: Queue, head: u16) -> Queue
    ensures { result ≡ took_head q head }
{
    let next = index_after(q.next_available);
    let taken = Some(head);
    Queue {
        next_available: next,
        taken: taken,
        ..q
    }
}

// The queue after the head that was out is reported used.
fn gave_back(q: Queue) -> Queue
    ensures { result ≡ gave_back q }
{
    let next = index_after(q.next_used);
    let none = None;
    Queue {
        next_used: next,
        taken: none,
        ..q
    }
}

// What the device's answer means for the head that it is about.
fn ending_of(answer: Answer) -> Ending
    ensures { result ≡ ending_of answer }
{
    match answer {
        Answer::Refused(_) => Ending::Stays,
        Answer::Wants(_) => Ending::Out,
        Answer::Sized => Ending::Stays,
        Answer::Unserved(_) => Ending::Used(0),
        Answer::Served(reply) => Ending::Used(reply.used),
        Answer::Done => Ending::Stays,
    }
}

// The queue by a head's ending; a head that is given back goes into the used ring.
pub fn settle(
    ending: Ending,
    head: u16,
    before: Queue,
    out: Queue,
    mem: &mut [u8],
    base: GuestAddr,
) -> Queue
    ensures { Settles ending head base.0 before out mem.old result mem.new }
{
    match ending {
        Ending::Stays => before,
        Ending::Out => out,
        Ending::Used(length) => {
            report(mem, base, out.used, out.next_used, head, length);
            gave_back(out)
        }
    }
}

fn tells(d: Device, q: Queue, answer: Option<Answer>) -> Turn
    ensures { result ≡ turned d q answer }
{
    Turn {
        device: d,
        queue: q,
        answer: answer,
    }
}

// What is told where no head is taken: the device's refusal first.
fn none_told(admitted: Result<(), Refusal>, next: Result<Option<u16>, Refusal>) -> Option<Answer>
    ensures { result ≡ none_told (next_unless admitted next) }
{
    match admitted.and(next) {
        Ok(_) => None,
        Err(refusal) => Some(Answer::Refused(refusal.number())),
    }
}

// The head that a call is to walk, or what it tells. Where there is a head, the device's own call gives its refusals.
pub fn next_taking(
    d: Device,
    q: Queue,
    bitmap: usize,
    table: usize,
    mem: &[u8],
    base: GuestAddr,
) -> Taking
    ensures { result ≡ taking_of d q (8 * bitmap) (table / 3) mem.now base.0 }
{
    let taken = q.taken;
    let pending = d.pending;
    if !queue_ok(taken, pending) {
        return Taking::NoHead(Some(Answer::Refused(Refusal::NoShape.number())));
    }
    let next = next_head(mem, base, q);
    let Some(head) = next.ok().flatten() else {
        let admitted = ready_refusal(d, bitmap, table);
        return Taking::NoHead(none_told(admitted, next));
    };
    Taking::Walk(head)
}

// Takes the next head, and walks it.
pub fn serve_next(
    d: Device,
    q: Queue,
    bitmap: &mut [u8],
    table: &[u64],
    mem: &mut [u8],
    base: GuestAddr,
) -> Turn
    ensures { TakesTurn serve_next d q base
        (lent bitmap.old table.now mem.old)
        (lent bitmap.new table.now mem.new) result }
{
    match next_taking(d, q, bitmap.len(), table.len(), &mem[..], base) {
        Taking::NoHead(told) => tells(d, q, told),
        Taking::Walk(head) => {
            let s = request(d, bitmap, table, mem, base, q.descriptors, head);
            let answer = s.answer;
            let queue = settle(ending_of(answer), head, q, took_head(q, head), mem, base);
            tells(s.device, queue, Some(answer))
        }
    }
}

// Whether the head that is out, if one is, can be reported.
fn can_report(taken: Option<u16>, mem: &[u8], base: GuestAddr, q: Queue) -> bool
    ensures { result ≡ can_report taken (length mem.now) base.0 q }
{
    match taken {
        None => true,
        Some(_) => rings_inside(mem, base, q),
    }
}

// The refusal of a device that waits for the host, 12 or 11, and then 14. `pending_refusal` has both tests: with a
// second caller it would no longer stand in the device's own call.
fn outside_refusal(d: Device, bitmap: usize, table: usize) -> Refusal
    ensures { result ≡ outside_refusal d (8 * bitmap) (table / 3) }
{
    if !shaped(d) {
        return Refusal::NoShape;
    }
    if !tables_fit(d, bitmap, table) {
        return Refusal::TooShort;
    }
    Refusal::RingOutside
}

// Whether the queue admits a host's answer. Where it does, the device's own call gives its refusals.
pub fn queue_refusal(
    d: Device,
    q: Queue,
    bitmap: usize,
    table: usize,
    mem: &[u8],
    base: GuestAddr,
) -> Result<(), Refusal>
    ensures { result ≡ queue_refusal d q (8 * bitmap) (table / 3) (length mem.now) base.0 }
{
    let taken = q.taken;
    let pending = d.pending;
    if !queue_ok(taken, pending) {
        return Err(Refusal::NoShape);
    }
    if can_report(taken, mem, base, q) {
        return Ok(());
    }
    Err(outside_refusal(d, bitmap, table))
}

// The host's answer to what it was asked last; it may end the request of the head that is out.
pub fn host_answer(
    d: Device,
    q: Queue,
    bitmap: &mut [u8],
    table: &mut [u64],
    mem: &mut [u8],
    base: GuestAddr,
    ok: bool,
    host: HostAddr,
) -> Turn
    ensures { TakesTurn (λ w q g. host_answers w q g ok host.0) d q base
        (lent bitmap.old table.old mem.old)
        (lent bitmap.new table.new mem.new) result }
{
    if let Err(refusal) = queue_refusal(d, q, bitmap.len(), table.len(), &mem[..], base) {
        return tells(d, q, Some(Answer::Refused(refusal.number())));
    }
    let s = serving::host_answer(d, bitmap, table, mem, base, ok, host);
    let answer = s.answer;
    let taken = q.taken;
    let Some(head) = taken else {
        return tells(s.device, q, Some(answer));
    };
    let queue = settle(ending_of(answer), head, q, q, mem, base);
    tells(s.device, queue, Some(answer))
}
