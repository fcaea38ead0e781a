// SPDX-License-Identifier: Apache-2.0 AND BSD-3-Clause
// What a response means, in one plain sentence with the numbers that matter: what an ACK has done, and why a NACK or an
// ERROR has done nothing.
//
// Each function puts a text into a buffer at a position. It answers the next position, and one past the buffer's length
// where there is no room. Buffer and position stay two parameters: the buffer is lent, since there is no heap.
#![tactic(auto)]

ghost use Rattle.std.specs.Prelude.{◌≡◌};
ghost use Rattle.bitmap.specs.Blocks.{blocks};
ghost use Rattle.text.specs.Putting.{Put};
ghost use Rattle.responses.specs.Responses.{type_of, state_of, reason_of};
ghost use Rattle.responses.specs.Responses.{done, discarded_text, state_text, ack_text, nack};
ghost use Rattle.responses.specs.Responses.{outside_text, number_in, is_plug, wrong_text, error_text, reply_text};

use bitmap::{next_clear, next_set};
use change::Reason;
use forms::put_form_at;
use record::{Device, Pending};
use spans::{Records, Span, op_span};
use step::Reply;
use trace_text::{Op, RangeOp};
use units::MemTool;

// The types of a response (R7.4). BUSY is never given.
#[derive(Clone, Copy)]
enum ResponseType {
    Ack,
    Nack,
    Error,
}

impl ResponseType {
    // The type with this number: what is no ACK and no NACK is told as an ERROR.
    fn of(number: u16) -> ResponseType
        ensures { result ≡ type_of number }
    {
        match number {
            0 => ResponseType::Ack,
            1 => ResponseType::Nack,
            _ => ResponseType::Error,
        }
    }
}

// The states of a range of blocks (R7.4).
#[derive(Clone, Copy)]
enum BlockState {
    Plugged,
    Unplugged,
    Mixed,
}

impl BlockState {
    // The state with this number: what is not plugged and not unplugged is told as mixed.
    fn of(number: u16) -> BlockState
        ensures { result ≡ state_of number }
    {
        match number {
            0 => BlockState::Plugged,
            1 => BlockState::Unplugged,
            _ => BlockState::Mixed,
        }
    }
}

// The reason with this number (R10.17): an ERROR has one of 1 to 11, and any other is told as 6.
fn reason_of(why: u64) -> Reason
    ensures { result ≡ reason_of why }
{
    match why {
        1 => Reason::Alignment,
        2 => Reason::ZeroBlocks,
        3 => Reason::Overflow,
        4 => Reason::BelowStart,
        5 => Reason::PastUsable,
        7 => Reason::WrongState,
        8 => Reason::CrossesBorder,
        9 => Reason::Unmapped,
        10 => Reason::SumPasses,
        11 => Reason::FailedDiscard,
        _ => Reason::EndPastUsable,
    }
}

// How many MiB lie between two 2 GiB borders.
const BORDER: u64 = MemTool::MAP_REGION_SIZE / MemTool::MIB;

// An ACK of what has no sentence of its own.
fn put_done(out: &mut [u8], at: usize, d: Device) -> usize
    ensures { Put out.old at (done d) out.new result }
{
    put_form_at(
        out,
        at,
        b"ACK: plugged is # MiB now",
        &[d.config.plugged_size / MemTool::MIB],
    )
}

// The host's answer has ended an unplug, or an unplug-all.
#[tactic(auto, unfolding(crate::specs::Responses::discarded_text))]
fn put_discarded(out: &mut [u8], at: usize, pending: Pending, s: Span, d: Device) -> usize
    ensures { Put out.old at (discarded_text pending s d) out.new result }
{
    match pending {
        Pending::Discard { .. } => put_form_at(
            out,
            at,
            b"ACK: # MiB unplugged at offset # MiB; plugged is # MiB now",
            &[s.size, s.offset, d.config.plugged_size / MemTool::MIB],
        ),
        Pending::DiscardOne { .. } => put_form_at(
            out,
            at,
            b"ACK: all is unplugged; plugged is # MiB now",
            &[d.config.plugged_size / MemTool::MIB],
        ),
        _ => put_done(out, at, d),
    }
}

// The state of a range.
#[tactic(auto, unfolding(crate::specs::Responses::state_text))]
fn put_state(out: &mut [u8], at: usize, state: BlockState, s: Span) -> usize
    ensures { Put out.old at (state_text state s) out.new result }
{
    match state {
        BlockState::Plugged => {
            put_form_at(
                out,
                at,
                b"ACK: the # MiB at offset # MiB are plugged",
                &[s.size, s.offset],
            )
        }
        BlockState::Unplugged => {
            put_form_at(
                out,
                at,
                b"ACK: the # MiB at offset # MiB are unplugged",
                &[s.size, s.offset],
            )
        }
        BlockState::Mixed => put_form_at(
            out,
            at,
            b"ACK: the # MiB at offset # MiB are mixed: some blocks are plugged, some are not",
            &[s.size, s.offset],
        ),
    }
}

// An ACK.
#[tactic(auto, unfolding(crate::specs::Responses::ack_text))]
fn put_ack(
    out: &mut [u8],
    at: usize,
    op: Op,
    state: BlockState,
    pending: Pending,
    s: Span,
    d: Device,
) -> usize
    ensures { Put out.old at (ack_text op state pending s d) out.new result }
{
    match op {
        Op::Host { .. } => put_discarded(out, at, pending, s, d),
        Op::Range {
            op: RangeOp::Plug,
            ..
        } => put_form_at(
            out,
            at,
            b"ACK: # MiB plugged at offset # MiB; plugged is # MiB now",
            &[s.size, s.offset, d.config.plugged_size / MemTool::MIB],
        ),
        Op::Range {
            op: RangeOp::State,
            ..
        } => put_state(out, at, state, s),
        Op::UnplugAll => put_form_at(
            out,
            at,
            b"ACK: no block was plugged; plugged is # MiB now",
            &[d.config.plugged_size / MemTool::MIB],
        ),
        _ => put_done(out, at, d),
    }
}

// A NACK.
fn put_nack(out: &mut [u8], at: usize, s: Span, d: Device) -> usize
    ensures { Put out.old at (nack s d) out.new result }
{
    put_form_at(
        out,
        at,
        b"NACK: plugged # MiB and # MiB more would pass the requested # MiB",
        &[
            d.config.plugged_size / MemTool::MIB,
            s.size,
            d.config.requested_size / MemTool::MIB,
        ],
    )
}

// A range that is not inside.
#[tactic(auto, unfolding(crate::specs::Responses::outside_text))]
fn put_outside(out: &mut [u8], at: usize, why: Reason, s: Span, d: Device) -> usize
    ensures { Put out.old at (outside_text why s d) out.new result }
{
    match why {
        Reason::Alignment => put_form_at(
            out,
            at,
            b"ERROR: address # is no multiple of the block size, # MiB",
            &[s.addr, d.config.block_size / MemTool::MIB],
        ),
        Reason::ZeroBlocks => put_form_at(out, at, b"ERROR: the range has no blocks", &[]),
        Reason::Overflow => {
            put_form_at(
                out,
                at,
                b"ERROR: address # and # MiB more pass 2^64 - 1",
                &[s.addr, s.size],
            )
        }
        Reason::BelowStart => put_form_at(
            out,
            at,
            b"ERROR: the range begins at address #, below the region's start #",
            &[s.addr, d.config.addr.0],
        ),
        Reason::PastUsable => put_form_at(
            out,
            at,
            b"ERROR: the range begins at offset # MiB, and the usable size ends at # MiB",
            &[s.offset, d.config.usable_region_size / MemTool::MIB],
        ),
        _ => put_form_at(
            out,
            at,
            b"ERROR: the range ends at offset # MiB, and the usable size at # MiB",
            &[
                s.offset.saturating_add(s.size),
                d.config.usable_region_size / MemTool::MIB,
            ],
        ),
    }
}

// The number of a block in its range, from 1 on.
#[tactic(auto, unfolding(crate::specs::Responses::number_in))]
fn number_in(s: Span, found: Option<usize>) -> u64
    ensures { result ≡ number_in s found }
{
    match found {
        Some(i) => (i as u64).saturating_sub(s.first).saturating_add(1),
        None => 0,
    }
}

// Whether an op wants its blocks unplugged.
#[tactic(auto, unfolding(crate::specs::Responses::is_plug))]
fn is_plug(op: Op) -> bool
    ensures { result ≡ is_plug op }
{
    matches!(
        op,
        Op::Range {
            op: RangeOp::Plug,
            ..
        }
    )
}

// The first block of a range that is in the wrong state.
#[tactic(auto, unfolding(crate::specs::Responses::wrong_text))]
fn put_wrong(out: &mut [u8], at: usize, plug: bool, s: Span, bitmap: &[u8]) -> usize
    ensures { Put out.old at (wrong_text plug s (blocks bitmap.now)) out.new result }
{
    let first = s.first as usize;
    let end = s.first.saturating_add(s.blocks) as usize;
    if plug {
        let n = number_in(s, next_set(bitmap, first, end));
        return put_form_at(
            out,
            at,
            b"ERROR: block # of the range is plugged already",
            &[n],
        );
    }
    let n = number_in(s, next_clear(bitmap, first, end));
    put_form_at(out, at, b"ERROR: block # of the range is not plugged", &[n])
}

// An ERROR.
#[tactic(auto, unfolding(crate::specs::Responses::error_text))]
fn put_error(
    out: &mut [u8],
    at: usize,
    why: Reason,
    op: Op,
    s: Span,
    d: Device,
    bitmap: &[u8],
) -> usize
    ensures { Put out.old at (error_text why op s d (blocks bitmap.now)) out.new result }
{
    match why {
        Reason::WrongState => put_wrong(out, at, is_plug(op), s, bitmap),
        Reason::CrossesBorder => put_form_at(
            out,
            at,
            b"ERROR: the range, # MiB at offset # MiB, crosses the border at offset # MiB",
            &[
                s.size,
                s.offset,
                s.offset.saturating_add(BORDER - s.offset % BORDER),
            ],
        ),
        Reason::Unmapped => {
            put_form_at(
                out,
                at,
                b"ERROR: the host has nothing mapped at offset # MiB",
                &[s.offset],
            )
        }
        Reason::SumPasses => put_form_at(
            out,
            at,
            b"ERROR: the host address of offset # MiB and # MiB more pass 2^64 - 1",
            &[s.offset, s.size],
        ),
        Reason::FailedDiscard => put_form_at(
            out,
            at,
            b"ERROR: the host could not discard offset # MiB; plugged stays # MiB",
            &[s.offset, d.config.plugged_size / MemTool::MIB],
        ),
        _ => put_outside(out, at, why, s, d),
    }
}

// The sentence of a response to a line, with the lent bitmap as it is after the line.
#[tactic(auto, unfolding(crate::specs::Responses::reply_text, crate::specs::Responses::told_as))]
pub fn put_reply(
    out: &mut [u8],
    at: usize,
    reply: Reply,
    op: Op,
    records: Records,
    bitmap: &[u8],
) -> usize
    ensures { Put out.old at
        (reply_text reply op records.before records.after (blocks bitmap.now)) out.new result }
{
    let before = records.before;
    let s = op_span(op, before);
    match ResponseType::of(reply.response.resp_type) {
        ResponseType::Ack => {
            let state = BlockState::of(reply.response.state);
            put_ack(out, at, op, state, before.pending, s, records.after)
        }
        ResponseType::Nack => put_nack(out, at, s, before),
        ResponseType::Error => {
            let why = reason_of(reply.why);
            put_error(out, at, why, op, s, before, bitmap)
        }
    }
}
