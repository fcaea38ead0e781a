// SPDX-License-Identifier: Apache-2.0 AND BSD-3-Clause
// A run of a trace, a line at a time: the first makes the device and places it, and each later one is an op on it.
// Ops go through real chains in a guest memory, and each line prints the answer.
//
// Bitmap, table and guest memory are three parameters, as the calls of `serving` and `placing` take them: all are lent.
#![tactic(auto)]

ghost use Rattle.std.specs.Prelude.{◌≡◌, true, ◌+◌, ◌≤◌, length, take, Ok};
ghost use Rattle.text.specs.Putting.{Put};
ghost use Rattle.step.specs.Promise.{lent, Steps};
ghost use Rattle.wire.specs.Types.{type_number};
ghost use Rattle.trace_run.specs.Ops.{chained, asked, request_of, type_of, answer_text, Applies};
ghost use Rattle.record.specs.Shape.{shaped_of};
ghost use Rattle.answer_text.specs.Texts.{refusal_text};
ghost use Rattle.refusal.specs.Refusal.{number};
ghost use Rattle.step.specs.declared.Answer.TheVariants.{Refused};
ghost use Rattle.trace_run.specs.Run.{counted_from, placed_as, begun_on, begun_by, gone_on, turn};
ghost use Rattle.trace_run.specs.Run.{Prints, ComesTo, Serves, SlotFits};

use answer_text::{put_create, put_discard, put_refusal, put_response, put_sized};
use little_endian::{read_u16, write_u16, write_u32, write_u64};
use making::Mem;
use placing::{place, set_requested_size};
use record::{Device, HostCall};
use refusal::Refusal;
use serving::{host_answer, request};
use step::{Answer, Answered};
use text::put;
use trace_text::{FirstLine, Line, Op, RangeOp, read_line};
use units::{GuestAddr, map_regions};
use wire::RequestType;

// Where a run stands: before its first line, on a device, or ended. These are three ways, and an Option has two.
#[derive(Clone, Copy)]
pub enum Run {
    Before,
    On(Device),
    Ended,
}

// Where the run stands after a line, the line's answer, and how many bytes of output it has put at the start of a
// buffer. A bad line, and a device that is not made, are refused; a line after the end has `Done` for an answer.
#[derive(Clone, Copy)]
pub struct Shown {
    pub run: Run,
    pub answer: Answer,
    pub length: usize,
}

// Lays the two descriptors of every chain.
#[tactic(auto, unfolding(crate::specs::Ops::chained, crate::specs::Ops::laid))]
fn lay_chain(mem: &mut [u8])
    ensures { mem.new ≡ chained mem.old }
{
    write_u64(mem, 0, 64);
    write_u32(mem, 8, 24);
    write_u16(mem, 12, 1);
    write_u16(mem, 14, 1);
    write_u64(mem, 16, 96);
    write_u32(mem, 24, 10);
    write_u16(mem, 28, 2);
    write_u16(mem, 30, 0);
}

// Lays a request, as a guest would.
#[tactic(auto, unfolding(crate::specs::Ops::asked, crate::specs::Ops::laid))]
fn ask(mem: &mut [u8], req_type: u16, addr: GuestAddr, nb_blocks: u16)
    ensures { mem.new ≡ asked mem.old req_type addr.0 nb_blocks }
{
    lay_chain(mem);
    write_u64(mem, 64, req_type as u64);
    write_u64(mem, 72, addr.0);
    write_u64(mem, 80, nb_blocks as u64);
}

// A request, as a guest makes it: the chain is laid, and the device reads it.
fn guest_asks(
    d: Device,
    bitmap: &mut [u8],
    table: &[u64],
    mem: &mut [u8],
    req_type: RequestType,
    addr: GuestAddr,
    nb_blocks: u16,
) -> Answered
    ensures { Steps d (λ l. request_of l.bytes (type_number req_type) addr.0 nb_blocks)
        (lent bitmap.old table.now mem.old)
        (lent bitmap.new table.now mem.new) result }
{
    ask(mem, req_type as u16, addr, nb_blocks);
    request(d, bitmap, table, mem, GuestAddr(0), GuestAddr(0), 0)
}

// The request that asks for an op on a range.
fn type_of(op: RangeOp) -> RequestType
    ensures { result ≡ type_of op }
{
    match op {
        RangeOp::Plug => RequestType::Plug,
        RangeOp::Unplug => RequestType::Unplug,
        RangeOp::State => RequestType::State,
    }
}

// Applies an op to the device.
fn apply(d: Device, bitmap: &mut [u8], table: &mut [u64], mem: &mut [u8], op: Op) -> Answered
    ensures { Applies op d
        (lent bitmap.old table.old mem.old)
        (lent bitmap.new table.new mem.new) result }
{
    match op {
        Op::Host { ok, addr } => host_answer(d, bitmap, table, mem, GuestAddr(0), ok, addr),
        Op::Range { op, addr, blocks } => guest_asks(
            d,
            bitmap,
            &table[..],
            mem,
            type_of(op),
            addr,
            blocks,
        ),
        Op::UnplugAll => guest_asks(
            d,
            bitmap,
            &table[..],
            mem,
            RequestType::UnplugAll,
            GuestAddr(0),
            0,
        ),
        Op::Size { mib } => set_requested_size(d, &bitmap[..], &table[..], mib),
    }
}

// Puts the line of an answer at the start of a buffer, and answers its length; no line has more than 200 bytes.
#[tactic(auto, unfolding(crate::specs::Ops::answer_text))]
fn put_answer(out: &mut [u8], s: Answered, mem: &[u8]) -> usize
    ensures { Put out.old 0 (answer_text s.answer s.device mem.now) out.new result }
{
    match s.answer {
        Answer::Refused(number) => put_refusal(out, number),
        Answer::Wants(HostCall::Create { guest, size, slot }) => put_create(out, guest, size, slot),
        Answer::Wants(HostCall::Discard { offset, size, host }) => put_discard(
            out, offset, size, host,
        ),
        Answer::Sized => put_sized(
            out,
            s.device.config.requested_size,
            s.device.config.usable_region_size,
        ),
        Answer::Served(reply) => put_response(
            out,
            read_u16(mem, 96),
            read_u16(mem, 104),
            s.device.config.plugged_size,
            s.device.config.usable_region_size,
            reply.why,
        ),
        Answer::Unserved(_) => 0,
        Answer::Done => 0,
    }
}

// Prints a refusal.
fn refuse(run: Run, out: &mut [u8], refusal: Refusal) -> Shown
    ensures { Prints run (Refused (number refusal)) (refusal_text (number refusal)) out.old result out.new }
{
    let number = refusal.number();
    let end = put_refusal(out, number);
    Shown {
        run,
        answer: Answer::Refused(number),
        length: put(out, end, b'\n'),
    }
}

// Prints an answer.
fn answer(run: Run, s: Answered, mem: &[u8], out: &mut [u8]) -> Shown
    ensures { Prints run s.answer (answer_text s.answer s.device mem.now)
        out.old result out.new }
{
    let end = put_answer(out, s, mem);
    Shown {
        run,
        answer: s.answer,
        length: put(out, end, b'\n'),
    }
}

// Slots count up from the first line's.
fn count_slots(slots: &mut [u32], first: u64)
    requires { first + length slots.old ≤ 4294967296 }
    ensures { slots.new ≡ counted_from first (length slots.old) }
{
    for i in 0..slots.len() {
        slots[i] = (first + i as u64) as u32;
    }
}

// A refused placing ends the run.
#[tactic(auto, unfolding(crate::specs::Run::placed_as))]
fn after_placing(s: Answered) -> Run
    ensures { result ≡ placed_as s.answer s.device }
{
    match s.answer {
        Answer::Refused(_) => Run::Ended,
        _ => Run::On(s.device),
    }
}

// Places a device that was made. It has at most 512 map regions, since a region has at most 1 TiB.
fn put_in_place(
    d: Device,
    first: FirstLine,
    bitmap: &mut [u8],
    table: &mut [u64],
    mem: &[u8],
    out: &mut [u8],
) -> Shown
    requires { (shaped_of d ≡ true) × (first.slot ≤ 4294966000) }
    ensures { ComesTo (begun_on (Ok d) first)
        (lent bitmap.old table.old mem.now)
        (lent bitmap.new table.new mem.now)
        out.old out.new result }
{
    let mut slots = [0u32; 512];
    count_slots(&mut slots, first.slot);
    let region = d.config.region_size;
    let rows = map_regions(region, d.several) as usize;
    let placed = place(d, bitmap, table, first.addr, region, &slots[..rows]);
    answer(after_placing(placed), placed, mem, out)
}

// The first line makes the device and places it; a refusal ends the run.
fn begin(
    first: FirstLine,
    bitmap: &mut [u8],
    table: &mut [u64],
    mem: &[u8],
    out: &mut [u8],
) -> Shown
    requires { first.slot ≤ 4294966000 }
    ensures { ComesTo (begun_by first)
        (lent bitmap.old table.old mem.now)
        (lent bitmap.new table.new mem.now)
        out.old out.new result }
{
    let made = Mem::new(
        first.capacity_mib,
        first.requested_mib,
        first.multi,
        first.node,
        first.boot,
    );
    match made {
        Ok(device) => put_in_place(device, first, bitmap, table, mem, out),
        Err(refusal) => refuse(Run::Ended, out, refusal),
    }
}

// A line of a run that has not begun.
#[tactic(auto, unfolding(crate::specs::Run::turn))]
fn first_line(
    line: Option<Line>,
    bitmap: &mut [u8],
    table: &mut [u64],
    mem: &[u8],
    out: &mut [u8],
) -> Shown
    requires { SlotFits line }
    ensures { ComesTo (turn Run.Before line)
        (lent bitmap.old table.old mem.now)
        (lent bitmap.new table.new mem.now)
        out.old out.new result }
{
    match line {
        Some(Line::First(first)) => begin(first, bitmap, table, mem, out),
        Some(Line::Later(_)) => refuse(Run::Ended, out, Refusal::BadLine),
        None => refuse(Run::Ended, out, Refusal::BadLine),
    }
}

// An op on the device.
fn go_on(
    d: Device,
    op: Op,
    bitmap: &mut [u8],
    table: &mut [u64],
    mem: &mut [u8],
    out: &mut [u8],
) -> Shown
    ensures { ComesTo (gone_on d op)
        (lent bitmap.old table.old mem.old)
        (lent bitmap.new table.new mem.new)
        out.old out.new result }
{
    let s = apply(d, bitmap, table, mem, op);
    answer(Run::On(s.device), s, mem, out)
}

// A line of a run that has a device. A creation that the host fails is refused as 10 like any other call, also the one
// that places the device: the run goes on, with a device that is in no place.
#[tactic(auto, unfolding(crate::specs::Run::turn))]
fn later_line(
    d: Device,
    line: Option<Line>,
    bitmap: &mut [u8],
    table: &mut [u64],
    mem: &mut [u8],
    out: &mut [u8],
) -> Shown
    ensures { ComesTo (turn (Run.On d) line)
        (lent bitmap.old table.old mem.old)
        (lent bitmap.new table.new mem.new)
        out.old out.new result }
{
    match line {
        Some(Line::Later(op)) => go_on(d, op, bitmap, table, mem, out),
        Some(Line::First(_)) => refuse(Run::On(d), out, Refusal::BadLine),
        None => refuse(Run::On(d), out, Refusal::BadLine),
    }
}

// One line of a run: its bytes without their newline go in, and the line that it prints comes out at the start of
// `out`, with its newline. The length is one more than the buffer's where there is no room for it; 201 bytes are room
// enough.
pub fn serve(
    run: Run,
    bitmap: &mut [u8],
    table: &mut [u64],
    mem: &mut [u8],
    line: &[u8],
    out: &mut [u8],
) -> Shown
    ensures { Serves run line.now
        (lent bitmap.old table.old mem.old)
        (lent bitmap.new table.new mem.new)
        out.old out.new result }
{
    let read = read_line(line);
    match run {
        Run::Before => first_line(read, bitmap, table, mem, out),
        Run::On(device) => later_line(device, read, bitmap, table, mem, out),
        Run::Ended => Shown {
            run: Run::Ended,
            answer: Answer::Done,
            length: 0,
        },
    }
}

// The first bytes of a buffer, where it has so many: a line that is gathered there, or what a line has printed.
pub fn first_bytes(s: &[u8], count: usize) -> &[u8]
    ensures { result.now ≡ take count s.now }
{
    if count < s.len() {
        return &s[..count];
    }
    s
}
