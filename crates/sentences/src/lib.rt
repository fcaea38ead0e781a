// SPDX-License-Identifier: Apache-2.0 AND BSD-3-Clause
// What an answer to a line of a trace means, in one plain sentence, and what is said at the end of a run.
//
// Each function that puts a text puts it into a buffer at a position. It answers the next position, and one past the
// buffer's length where there is no room. Buffer and position stay two parameters: the buffer is lent, and there is no
// heap for a String.
#![tactic(auto)]

ghost use Rattle.std.specs.Prelude.{◌≡◌};
ghost use Rattle.bitmap.specs.Blocks.{blocks};
ghost use Rattle.text.specs.Putting.{Put};
ghost use Rattle.sentences.specs.Sentences.{wants_text, sized, ended};
ghost use Rattle.sentences.specs.Sentences.{served_text, sentence};
ghost use Rattle.sentences.specs.Summary.{gap_text, mark, row_text, same_row};

use bitmap::is_set;
use forms::put_form_at;
use record::{Device, HostCall};
use refusals::put_refused;
use responses::put_reply;
use spans::Records;
use step::{Answer, Reply};
use text::put;
use trace_text::Line;
use units::MemTool;

// A question to the host.
#[tactic(auto, unfolding(crate::specs::Sentences::wants_text))]
fn put_wants(out: &mut [u8], at: usize, call: HostCall) -> usize
    ensures { Put out.old at (wants_text call) out.new result }
{
    match call {
        HostCall::Create { guest, size, slot } => put_form_at(
            out,
            at,
            b"asks the host to create # MiB at guest address #, in slot #",
            &[size / MemTool::MIB, guest.0, slot],
        ),
        HostCall::Discard { offset, size, .. } => put_form_at(
            out,
            at,
            b"asks the host to discard # MiB at offset # MiB",
            &[size / MemTool::MIB, offset.0 / MemTool::MIB],
        ),
    }
}

// A size change that is done.
fn put_sized(out: &mut [u8], at: usize, d: Device) -> usize
    ensures { Put out.old at (sized d) out.new result }
{
    put_form_at(
        out,
        at,
        b"done: requested is # MiB now, usable # MiB",
        &[
            d.config.requested_size / MemTool::MIB,
            d.config.usable_region_size / MemTool::MIB,
        ],
    )
}

// A line after the end of a run.
fn put_ended(out: &mut [u8], at: usize) -> usize
    ensures { Put out.old at ended out.new result }
{
    put_form_at(out, at, b"nothing: the run has ended", &[])
}

// A response.
#[tactic(auto, unfolding(crate::specs::Sentences::served_text))]
fn put_served(
    out: &mut [u8],
    at: usize,
    reply: Reply,
    line: Option<Line>,
    records: Records,
    bitmap: &[u8],
) -> usize
    ensures { Put out.old at
        (served_text reply line records.before records.after (blocks bitmap.now)) out.new result }
{
    match line {
        Some(Line::Later(op)) => put_reply(out, at, reply, op, records, bitmap),
        Some(Line::First(_)) => put_ended(out, at),
        None => put_ended(out, at),
    }
}

// The sentence of an answer to a line, with the lent bitmap as it is after the line.
#[tactic(auto, unfolding(crate::specs::Sentences::sentence))]
pub fn put_sentence(
    out: &mut [u8],
    at: usize,
    line: Option<Line>,
    records: Records,
    bitmap: &[u8],
    answer: Answer,
) -> usize
    ensures { Put out.old at
        (sentence line records.before records.after (blocks bitmap.now) answer) out.new result }
{
    match answer {
        Answer::Refused(number) => put_refused(out, at, number, line, records),
        Answer::Wants(call) => put_wants(out, at, call),
        Answer::Sized => put_sized(out, at, records.after),
        Answer::Unserved(reason) => put_form_at(
            out,
            at,
            b"no request (#): the chain is none, or its type is unknown",
            &[reason],
        ),
        Answer::Served(reply) => put_served(out, at, reply, line, records, bitmap),
        Answer::Done => put_ended(out, at),
    }
}

// How far the guest is from what was requested.
#[tactic(auto, unfolding(crate::specs::Summary::gap_text))]
pub fn put_gap(out: &mut [u8], at: usize, requested: u64, plugged: u64) -> usize
    ensures { Put out.old at (gap_text requested plugged) out.new result }
{
    if plugged == requested {
        return put_form_at(out, at, b"the guest has what was requested", &[]);
    }
    if plugged < requested {
        let less = (requested - plugged) / MemTool::MIB;
        return put_form_at(out, at, b"the guest has # MiB less than requested", &[less]);
    }
    let more = (plugged - requested) / MemTool::MIB;
    put_form_at(out, at, b"the guest has # MiB more than requested", &[more])
}

// The mark of a block on the map.
#[tactic(auto, unfolding(crate::specs::Summary::mark))]
fn mark_of(plugged: bool) -> u8
    ensures { result ≡ mark plugged }
{
    if plugged { b'#' } else { b'.' }
}

// A row of the map: the `count` blocks from `first` on.
pub fn put_row(out: &mut [u8], at: usize, bitmap: &[u8], first: u32, count: u32) -> usize
    ensures { Put out.old at (row_text (blocks bitmap.now) first count) out.new result }
{
    let mut to = forms::within(at, out.len());
    for i in 0..count {
        let block = first as usize + i as usize;
        to = put(out, to, mark_of(is_set(bitmap, block)));
    }
    to
}

// Whether the `count` blocks from `a` on are as those from `b` on.
pub fn same_row(bitmap: &[u8], a: u32, b: u32, count: u32) -> bool
    ensures { result ≡ same_row (blocks bitmap.now) a b count }
{
    for i in 0..count {
        let one = is_set(bitmap, a as usize + i as usize);
        let other = is_set(bitmap, b as usize + i as usize);
        if one != other {
            return false;
        }
    }
    true
}
