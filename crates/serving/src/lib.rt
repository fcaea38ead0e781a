// SPDX-License-Identifier: Apache-2.0 AND BSD-3-Clause
// Requests of the guest (plug, unplug, unplug-all and state), and the host's answer to a discard or a creation.
#![tactic(auto)]

ghost use Rattle.std.specs.Prelude.{◌≡◌, true, [], ◌≤◌, ◌<◌};
ghost use Rattle.record.specs.declared.HostCall.TheVariants.{Discard as DiscardCall};
ghost use Rattle.record.specs.declared.Pending.TheVariants.{Create, Discard, DiscardOne};
ghost use Rattle.record.specs.Changes.{pending_to, plugged_to};
ghost use Rattle.step.specs.declared.Answer.TheVariants.{Wants};
ghost use Rattle.step.specs.World.{no_guest, world_of};
ghost use Rattle.step.specs.Step.{plug as plug_of, unplug as unplug_of, unplug_one, unplug_all, serve as serve_of};
ghost use Rattle.change.specs.Why.{why};
ghost use Rattle.step.specs.Step.{stops, state_verdict, creates, covered_by, host_answer};
ghost use Rattle.step.specs.Promise.{lent, Gives, Steps, Does, request_on, answer_on};
ghost use Rattle.units.specs.Numbers.{blocks_in};
ghost use Rattle.bitmap.specs.Blocks.{blocks, block_at};

use bitmap::{next_set, set_range};
use chain::{Asked, NoRequest, parse};
use change::{Area, Blocks, Reason, host_of};
use record::{Device, HostCall, Pending};
use refusal::Refusal;
use rows::fill;
use step::{
    Answer, Answered, Shaped, Verdict, pending_refusal, ready_refusal, refuse_as, respond, sized,
};
use units::{GuestAddr, HostAddr, MemTool, RegionOffset, sum_within};
use wire::{RequestType, VirtioMemConfig, VirtioMemReq};

// Why a response is an ERROR where the host could not discard (R10.17).
const FAILED_DISCARD: Reason = Reason::FailedDiscard;

// The record with another plugged size.
fn plugged_to(d: Device, plugged: u64) -> Device
    ensures { result ≡ plugged_to plugged d }
{
    let c = d.config;
    Device {
        config: VirtioMemConfig {
            plugged_size: plugged,
            ..c
        },
        ..d
    }
}

// The record with another pending call.
fn pending_to(d: Device, pending: Pending) -> Device
    ensures { result ≡ pending_to pending d }
{
    Device {
        pending: pending,
        ..d
    }
}

// Where a request may lie: so many bytes from the start on. By the shape the block size fits 32 bits.
fn area_of(shaped: Shaped, size: u64) -> Area
    ensures { result ≡ record {
      start = shaped.device.config.addr;
      size = size;
      block_size = shaped.device.config.block_size;
    } }
{
    let config = shaped.device.config;
    Area {
        start: config.addr,
        size: size,
        block_size: config.block_size as u32,
    }
}

// The blocks that a request names.
fn blocks_of(request: VirtioMemReq) -> Blocks
    ensures { result ≡ record { addr = request.addr; nb_blocks = request.nb_blocks } }
{
    Blocks {
        addr: request.addr,
        nb_blocks: request.nb_blocks,
    }
}

// Ends an unplug or an unplug-all with ERROR: nothing has changed but that nothing is pending.
fn stopped(
    d: Device,
    mem: &mut [u8],
    base: GuestAddr,
    status: GuestAddr,
    reason: Reason,
) -> Answered
    ensures { Does (λ w. stops (why reason) w status.0) d base
        (lent [] [] mem.old)
        (lent [] [] mem.new) result }
{
    let stopped = pending_to(d, Pending::Nothing);
    respond(stopped, mem, base, status, Verdict::error(reason))
}

// A plug: NACK before every test of the range.
fn plug(
    shaped: Shaped,
    bitmap: &mut [u8],
    table: &[u64],
    mem: &mut [u8],
    base: GuestAddr,
    asks: Asked,
) -> Answered
    ensures { Does (λ w. plug_of w asks.request.addr.0 asks.request.nb_blocks asks.status.0) shaped.device base
        (lent bitmap.old table.now mem.old)
        (lent bitmap.new table.now mem.new) result }
{
    let d = shaped.device;
    let blocks = blocks_of(asks.request);
    let nb_blocks = blocks.nb_blocks;
    let status = asks.status;
    let plugged = d.config.plugged_size;
    let area = area_of(shaped, d.config.usable_region_size);
    let size = MemTool::bytes_of(nb_blocks, area.block_size);
    if !sum_within(plugged, size, d.config.requested_size) {
        return respond(d, mem, base, status, Verdict::nack());
    }
    let tested = area.change_of(d.several, blocks, true, &bitmap[..], table);
    let change = match tested {
        Ok(change) => change,
        Err(why) => return respond(d, mem, base, status, Verdict::error(why)),
    };
    set_range(bitmap, change.first as usize, nb_blocks as usize, true);
    let grown = plugged_to(d, plugged + size);
    respond(grown, mem, base, status, Verdict::ack())
}

// Asks the host for a discard: the answer ends what is pending then.
fn asked(d: Device, pending: Pending, offset: RegionOffset, size: u64, host: HostAddr) -> Answered
    ensures { result ≡ record { device = pending_to pending d; answer = Wants (DiscardCall offset size host) } }
{
    let call = HostCall::Discard {
        offset: offset,
        size: size,
        host: host,
    };
    let device = pending_to(d, pending);
    Answered {
        device: device,
        answer: Answer::Wants(call),
    }
}

// An unplug: one discard of the range, unless it is more than is plugged.
fn unplug(
    shaped: Shaped,
    bitmap: &[u8],
    table: &[u64],
    mem: &mut [u8],
    base: GuestAddr,
    asks: Asked,
) -> Answered
    ensures { Does (λ w. unplug_of w asks.request.addr.0 asks.request.nb_blocks asks.status.0) shaped.device base
        (lent bitmap.now table.now mem.old)
        (lent bitmap.now table.now mem.new) result }
{
    let d = shaped.device;
    let blocks = blocks_of(asks.request);
    let nb_blocks = blocks.nb_blocks;
    let status = asks.status;
    let area = area_of(shaped, d.config.usable_region_size);
    let tested = area.change_of(d.several, blocks, false, bitmap, table);
    let change = match tested {
        Ok(change) => change,
        Err(why) => return respond(d, mem, base, status, Verdict::error(why)),
    };
    let size = MemTool::bytes_of(nb_blocks, area.block_size);
    if d.config.plugged_size < size {
        return refuse_as(d, Refusal::NoShape);
    }
    let pending = Pending::Discard {
        first: change.first,
        count: nb_blocks as u64,
        status: status,
    };
    asked(d, pending, change.offset, size, change.host)
}

// One plugged block of an unplug-all, which asks without a look at the plugged size. It is whole and in the region, so
// of the tests (b) and (c) the usable size is left.
fn unplug_one(
    shaped: Shaped,
    bitmap: &[u8],
    table: &[u64],
    mem: &mut [u8],
    base: GuestAddr,
    block: u64,
    status: GuestAddr,
) -> Answered
    requires { (block < blocks_in shaped.device.config.block_size shaped.device.config.region_size) ×
        (block_at (blocks bitmap.now) block ≡ true) }
    ensures { Does (λ w. unplug_one w block status.0) shaped.device base
        (lent bitmap.now table.now mem.old)
        (lent bitmap.now table.now mem.new) result }
{
    let d = shaped.device;
    let block_size = d.config.block_size;
    let offset = RegionOffset(block * block_size);
    if d.config.usable_region_size <= offset.0 {
        return stopped(d, mem, base, status, Reason::PastUsable);
    }
    let host = match host_of(d.several, table, offset, block_size) {
        Ok(host) => host,
        Err(why) => return stopped(d, mem, base, status, why),
    };
    let pending = Pending::DiscardOne {
        block: block,
        status: status,
    };
    asked(d, pending, offset, block_size, host)
}

// The next block of an unplug-all from block `from` on, or its end.
fn unplug_all(
    shaped: Shaped,
    bitmap: &[u8],
    table: &[u64],
    mem: &mut [u8],
    base: GuestAddr,
    from: u64,
    status: GuestAddr,
) -> Answered
    ensures { Does (λ w. unplug_all w from status.0) shaped.device base
        (lent bitmap.now table.now mem.old)
        (lent bitmap.now table.now mem.new) result }
{
    let d = shaped.device;
    let end = MemTool::blocks_in(d.config.region_size, d.config.block_size);
    let Some(block) = next_set(bitmap, from as usize, end as usize) else {
        let none = pending_to(plugged_to(d, 0), Pending::Nothing);
        return respond(none, mem, base, status, Verdict::ack());
    };
    unplug_one(shaped, bitmap, table, mem, base, block as u64, status)
}

// What a state request comes to: the state is over the blocks that the region has, also where they are not usable.
fn state(shaped: Shaped, bitmap: &[u8], blocks: Blocks) -> Verdict
    ensures { result ≡ state_verdict (world_of shaped.device bitmap.now []) blocks.addr.0 blocks.nb_blocks }
{
    let config = shaped.device.config;
    let state = area_of(shaped, config.region_size).state_of(blocks, bitmap);
    match area_of(shaped, config.usable_region_size).range_of(blocks) {
        Ok(_) => Verdict::ack().with_state(state),
        Err(why) => Verdict::error(why).with_state(state),
    }
}

// A request, by its type.
fn serve(
    shaped: Shaped,
    bitmap: &mut [u8],
    table: &[u64],
    mem: &mut [u8],
    base: GuestAddr,
    asks: Asked,
) -> Answered
    ensures { Does (λ w. serve_of w asks.request asks.status.0) shaped.device base
        (lent bitmap.old table.now mem.old)
        (lent bitmap.new table.now mem.new) result }
{
    let d = shaped.device;
    let req = asks.request;
    let status = asks.status;
    let Ok(req_type) = RequestType::try_from(req.req_type) else {
        return Answered {
            device: d,
            answer: Answer::Unserved(NoRequest::UnknownType.number()),
        };
    };
    match req_type {
        RequestType::Plug => plug(shaped, bitmap, table, mem, base, asks),
        RequestType::Unplug => unplug(shaped, &bitmap[..], table, mem, base, asks),
        RequestType::UnplugAll => unplug_all(shaped, &bitmap[..], table, mem, base, 0, status),
        RequestType::State => {
            let verdict = state(shaped, &bitmap[..], blocks_of(req));
            respond(d, mem, base, status, verdict)
        }
    }
}

// One chain of the guest. What it asks, and where its response goes, is read here and nowhere else.
pub fn request(
    d: Device,
    bitmap: &mut [u8],
    table: &[u64],
    mem: &mut [u8],
    base: GuestAddr,
    descriptors: GuestAddr,
    head: u16,
) -> Answered
    ensures { Steps d (request_on base.0 descriptors.0 head)
        (lent bitmap.old table.now mem.old)
        (lent bitmap.new table.now mem.new) result }
{
    if let Err(refusal) = ready_refusal(d, bitmap.len(), table.len()) {
        return refuse_as(d, refusal);
    }
    match parse(&mem[..], base, descriptors, head) {
        Ok(asks) => {
            let shaped = Shaped { device: d };
            serve(shaped, bitmap, table, mem, base, asks)
        }
        Err(reason) => Answered {
            device: d,
            answer: Answer::Unserved(reason.number()),
        },
    }
}

// The host's answer to the discard of an unplug.
fn unplug_answered(
    shaped: Shaped,
    bitmap: &mut [u8],
    table: &[u64],
    mem: &mut [u8],
    base: GuestAddr,
    first: u64,
    count: u64,
    status: GuestAddr,
    ok: bool,
) -> Answered
    requires { shaped.device.pending ≡ Discard first count status }
    ensures { Does (λ w g. host_answer (Discard first count status) w g ok 0) shaped.device base
        (lent bitmap.old table.now mem.old)
        (lent bitmap.new table.now mem.new) result }
{
    let d = shaped.device;
    let failed = !ok;
    if failed {
        return stopped(d, mem, base, status, FAILED_DISCARD);
    }
    let left = d.config.plugged_size - count * d.config.block_size;
    set_range(bitmap, first as usize, count as usize, false);
    let unplugged = pending_to(plugged_to(d, left), Pending::Nothing);
    respond(unplugged, mem, base, status, Verdict::ack())
}

// The host's answer to the discard of one block of an unplug-all: the block is cleared and its size taken off at once,
// and the unplug-all goes on behind it. The plugged size never goes below 0, which only a spoiled bitmap could bring.
fn one_answered(
    shaped: Shaped,
    bitmap: &mut [u8],
    table: &[u64],
    mem: &mut [u8],
    base: GuestAddr,
    block: u64,
    status: GuestAddr,
    ok: bool,
) -> Answered
    requires { shaped.device.pending ≡ DiscardOne block status }
    ensures { Does (λ w g. host_answer (DiscardOne block status) w g ok 0) shaped.device base
        (lent bitmap.old table.now mem.old)
        (lent bitmap.new table.now mem.new) result }
{
    let d = shaped.device;
    if !ok {
        return stopped(d, mem, base, status, FAILED_DISCARD);
    }
    let left = d.config.plugged_size.saturating_sub(d.config.block_size);
    set_range(bitmap, block as usize, 1, false);
    let cleared = Shaped {
        device: pending_to(plugged_to(d, left), Pending::Nothing),
    };
    unplug_all(cleared, &bitmap[..], table, mem, base, block + 1, status)
}

// The bytes from the host address on that the rows from `first` to `last` map.
fn covered_by(d: Device, first: u64, last: u64) -> u64
    requires { (first ≤ last) × (last < 512) }
    ensures { result ≡ covered_by (world_of d [] []) first last }
{
    if d.several {
        return (last - first + 1) * MemTool::MAP_REGION_SIZE;
    }
    d.config.region_size
}

// The creation that covers the rows from `first` to `last` is done: they are mapped from `host` on.
fn created(shaped: Shaped, table: &mut [u64], first: u64, last: u64, host: HostAddr) -> Answered
    ensures { Gives (creates (world_of shaped.device [] table.old) first last host.0 [])
        (lent [] table.old [])
        (lent [] table.new []) result }
{
    let d = shaped.device;
    fill(table, first, last, host);
    Answered {
        device: pending_to(sized(d), Pending::Nothing),
        answer: Answer::Sized,
    }
}

// The host's answer to a creation. Where it failed the device waits for nothing, and all else stands.
fn creation_answered(
    shaped: Shaped,
    table: &mut [u64],
    first: u64,
    last: u64,
    ok: bool,
    host: HostAddr,
) -> Answered
    requires { shaped.device.pending ≡ Create first last }
    ensures { Gives (host_answer (Create first last) (world_of shaped.device [] table.old) no_guest ok host.0)
        (lent [] table.old [])
        (lent [] table.new []) result }
{
    let d = shaped.device;
    if !ok {
        return refuse_as(pending_to(d, Pending::Nothing), Refusal::CreationFailed);
    }
    if !sum_within(host.0, covered_by(d, first, last), u64::MAX) {
        return refuse_as(d, Refusal::HostPastTop);
    }
    created(shaped, table, first, last, host)
}

// The host's answer to what it was asked last. A creation's has a host address; a discard's is heard without one.
pub fn host_answer(
    d: Device,
    bitmap: &mut [u8],
    table: &mut [u64],
    mem: &mut [u8],
    base: GuestAddr,
    ok: bool,
    host: HostAddr,
) -> Answered
    ensures { Steps d (answer_on base.0 ok host.0)
        (lent bitmap.old table.old mem.old)
        (lent bitmap.new table.new mem.new) result }
{
    if let Err(refusal) = pending_refusal(d, bitmap.len(), table.len()) {
        return refuse_as(d, refusal);
    }
    let shaped = Shaped { device: d };
    let pending = d.pending;
    match pending {
        Pending::Nothing => refuse_as(d, Refusal::NothingPending),
        Pending::Create { first, last } => creation_answered(shaped, table, first, last, ok, host),
        Pending::Discard {
            first,
            count,
            status,
        } => unplug_answered(
            shaped,
            bitmap,
            &table[..],
            mem,
            base,
            first,
            count,
            status,
            ok,
        ),
        Pending::DiscardOne { block, status } => {
            one_answered(shaped, bitmap, &table[..], mem, base, block, status, ok)
        }
    }
}
