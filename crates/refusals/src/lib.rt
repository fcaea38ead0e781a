// SPDX-License-Identifier: Apache-2.0 AND BSD-3-Clause
// What a refusal means, in one plain sentence with the numbers that matter, and what the device waits for.
//
// Each function puts a text into a buffer at a position. It answers the next position, and one past the buffer's length
// where there is no room. Buffer and position stay two parameters: the buffer is lent, since there is no heap.
#![tactic(auto)]

ghost use Rattle.text.specs.Putting.{Put};
ghost use Rattle.refusal.specs.Refusal.{number};
ghost use Rattle.refusals.specs.Refusals.{waits_text, plain_text, first_size_text, start_text, first_refused};
ghost use Rattle.refusals.specs.Refusals.{size_text, create_text, busy_text, later_refused, refused_text};

use forms::put_form_at;
use record::{Device, Pending};
use refusal::Refusal;
use spans::{Records, covered_size, created_at, created_size, number_of, pending_span};
use trace_text::{FirstLine, Line, Op};
use units::{MemTool, alignment_of, is_multiple};

// The block size of a new device, and its largest capacity, in MiB.
const NEW_BLOCK: u64 = MemTool::BLOCK_SIZE / MemTool::MIB;

const LARGEST_CAPACITY: u64 = 1048576;

const HALF_MIB: u64 = MemTool::MIB / 2;

// What the device waits for.
#[tactic(auto, unfolding(crate::specs::Refusals::waits_for))]
pub fn put_waits(out: &mut [u8], at: usize, d: Device) -> usize
    ensures { Put out.old at (waits_text d) out.new result }
{
    match d.pending {
        Pending::Nothing => put_form_at(out, at, b"the device waits for nothing", &[]),
        Pending::Create { first, last } => put_form_at(
            out,
            at,
            b"the device still waits for the host to create # MiB at guest address #",
            &[
                created_size(d, first, last) / MemTool::MIB,
                created_at(d, first),
            ],
        ),
        _ => put_form_at(
            out,
            at,
            b"the device still waits for the host to discard offset # MiB",
            &[pending_span(d.pending, d).offset],
        ),
    }
}

// A refusal whose sentence needs no number of the line or of the device.
#[tactic(auto, unfolding(crate::specs::Refusals::plain_text))]
fn put_plain(out: &mut [u8], at: usize, refusal: Refusal) -> usize
    ensures { Put out.old at (plain_text (number refusal)) out.new result }
{
    match refusal {
        Refusal::WrongRange => put_form_at(
            out,
            at,
            b"refused (3): the slots are not one for each map region, or the range has not the region's size",
            &[],
        ),
        Refusal::NotPlaced => put_form_at(out, at, b"refused (5): the device is in no place", &[]),
        Refusal::AlreadyPlaced => put_form_at(
            out,
            at,
            b"refused (6): the device is in its place already",
            &[],
        ),
        Refusal::NothingPending => put_form_at(
            out,
            at,
            b"refused (8): the host was not asked anything",
            &[],
        ),
        Refusal::TooShort => put_form_at(
            out,
            at,
            b"refused (11): the bitmap or the map table is too short",
            &[],
        ),
        Refusal::NoShape => put_form_at(
            out,
            at,
            b"refused (12): the record has not the shape, or counts less than is to be unplugged",
            &[],
        ),
        Refusal::BadLine => put_form_at(
            out,
            at,
            b"refused (13): this line is none that can stand here",
            &[],
        ),
        _ => put_form_at(out, at, b"refused (#)", &[refusal.number()]),
    }
}

// A first line with no capacity, or with a requested size that is none.
#[tactic(auto, unfolding(crate::specs::Refusals::first_size_text))]
fn put_first_size(out: &mut [u8], at: usize, f: FirstLine) -> usize
    ensures { Put out.old at (first_size_text f) out.new result }
{
    if f.capacity_mib == 0 {
        return put_form_at(
            out,
            at,
            b"refused (1): a capacity of 0 MiB makes no device",
            &[],
        );
    }
    if is_multiple(f.requested_mib, NEW_BLOCK) {
        return put_form_at(
            out,
            at,
            b"refused (1): # MiB is above the capacity, # MiB rounded up to a multiple of # MiB",
            &[
                f.requested_mib,
                f.capacity_mib,
                alignment_of(f.boot) / HALF_MIB,
            ],
        );
    }
    put_form_at(
        out,
        at,
        b"refused (1): # MiB is no multiple of the block size, # MiB",
        &[f.requested_mib, NEW_BLOCK],
    )
}

// A first line with a start at which the region cannot be.
#[tactic(auto, unfolding(crate::specs::Refusals::start_text))]
fn put_start(out: &mut [u8], at: usize, f: FirstLine) -> usize
    ensures { Put out.old at (start_text f) out.new result }
{
    let alignment = alignment_of(f.boot);
    if is_multiple(f.addr.0, alignment) {
        return put_form_at(
            out,
            at,
            b"refused (4): a region at address # passes 2^64 - 1",
            &[f.addr.0],
        );
    }
    put_form_at(
        out,
        at,
        b"refused (4): address # is no multiple of the alignment, # MiB",
        &[f.addr.0, alignment / MemTool::MIB],
    )
}

// A first line.
#[tactic(auto, unfolding(crate::specs::Refusals::first_refused))]
fn put_first_refused(out: &mut [u8], at: usize, refusal: Refusal, f: FirstLine) -> usize
    ensures { Put out.old at (first_refused (number refusal) f) out.new result }
{
    match refusal {
        Refusal::WrongSize => put_first_size(out, at, f),
        Refusal::CapacityTooLarge => put_form_at(
            out,
            at,
            b"refused (2): a capacity of # MiB is above # MiB",
            &[f.capacity_mib, LARGEST_CAPACITY],
        ),
        Refusal::WrongStart => put_start(out, at, f),
        _ => put_plain(out, at, refusal),
    }
}

// A size change to what is no size for the device.
#[tactic(auto, unfolding(crate::specs::Refusals::size_text))]
fn put_size(out: &mut [u8], at: usize, size: u64, d: Device) -> usize
    ensures { Put out.old at (size_text size d) out.new result }
{
    let region = d.config.region_size / MemTool::MIB;
    if size <= region {
        return put_form_at(
            out,
            at,
            b"refused (1): # MiB is no multiple of the block size, # MiB",
            &[size, d.config.block_size / MemTool::MIB],
        );
    }
    put_form_at(
        out,
        at,
        b"refused (1): # MiB is above the region, # MiB",
        &[size, region],
    )
}

// A creation that the host could not make.
#[tactic(auto, unfolding(crate::specs::Refusals::create_text))]
fn put_create(out: &mut [u8], at: usize, d: Device) -> usize
    ensures { Put out.old at (create_text d) out.new result }
{
    if d.placed {
        return put_form_at(
            out,
            at,
            b"the host could not create: requested is # MiB now, usable stays # MiB",
            &[
                d.config.requested_size / MemTool::MIB,
                d.config.usable_region_size / MemTool::MIB,
            ],
        );
    }
    put_form_at(
        out,
        at,
        b"the host could not create: the device is in no place",
        &[],
    )
}

// A call while the device waits for the host.
fn put_busy(out: &mut [u8], at: usize, d: Device) -> usize
    ensures { Put out.old at (busy_text d) out.new result }
{
    let to = put_form_at(out, at, b"refused (7): ", &[]);
    put_waits(out, to, d)
}

// A later line.
#[tactic(auto, unfolding(crate::specs::Refusals::later_refused))]
fn put_later_refused(out: &mut [u8], at: usize, refusal: Refusal, op: Op, records: Records) -> usize
    ensures { Put out.old at (later_refused (number refusal) op records.before records.after) out.new result }
{
    let before = records.before;
    match refusal {
        Refusal::WrongSize => put_size(out, at, number_of(op), before),
        Refusal::CallPending => put_busy(out, at, before),
        Refusal::HostPastTop => put_form_at(
            out,
            at,
            b"refused (9): host address # and # MiB more pass 2^64 - 1",
            &[
                number_of(op),
                covered_size(before.pending, before) / MemTool::MIB,
            ],
        ),
        Refusal::CreationFailed => put_create(out, at, records.after),
        _ => put_plain(out, at, refusal),
    }
}

// A refusal of the law.
#[tactic(auto, unfolding(crate::specs::Refusals::refused_text))]
fn put_known(
    out: &mut [u8],
    at: usize,
    refusal: Refusal,
    line: Option<Line>,
    records: Records,
) -> usize
    ensures { Put out.old at
        (refused_text (number refusal) line records.before records.after) out.new result }
{
    match line {
        Some(Line::First(first)) => put_first_refused(out, at, refusal, first),
        Some(Line::Later(op)) => put_later_refused(out, at, refusal, op, records),
        None => put_plain(out, at, refusal),
    }
}

// The sentence of a line's refusal with this number; a number that the law has not is told as it is.
pub fn put_refused(out: &mut [u8], at: usize, n: u64, line: Option<Line>, records: Records) -> usize
    ensures { Put out.old at (refused_text n line records.before records.after) out.new result }
{
    match Refusal::try_from(n) {
        Ok(refusal) => put_known(out, at, refusal, line, records),
        Err(_) => put_form_at(out, at, b"refused (#)", &[n]),
    }
}
