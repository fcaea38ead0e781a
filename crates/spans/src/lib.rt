// SPDX-License-Identifier: Apache-2.0 AND BSD-3-Clause
// The numbers that sentences tell: the range that a line is about, and what a creation asks for. No number wraps: what
// passes 2^64 - 1 is told as that, which no record with the shape brings up.
#![tactic(auto)]

ghost use Rattle.std.specs.Prelude.{◌≡◌, cond, ◌+◌, ◌-◌, ◌*◌, eqb};
ghost use Rattle.units.specs.Numbers.{map_region, map_regions};
ghost use Rattle.spans.specs.Spans.{span_at, span_from, no_span, pending_span, op_span, brought};
ghost use Rattle.spans.specs.Spans.{created_at, created_size, covered_by, covered};

use record::{Device, Pending};
use trace_text::Op;
use units::{MemTool, RegionOffset, map_regions};

// A range of blocks: its address, its first block, how many blocks, and in MiB its offset and its size.
#[derive(Clone, Copy)]
pub struct Span {
    pub addr: u64,
    pub first: u64,
    pub blocks: u64,
    pub offset: u64,
    pub size: u64,
}

// The record that a line found, and the one that it left.
#[derive(Clone, Copy)]
pub struct Records {
    pub before: Device,
    pub after: Device,
}

// A range of blocks at a guest address.
fn span_at(addr: u64, blocks: u64, d: Device) -> Span
    ensures { result ≡ span_at addr blocks d }
{
    let offset = addr.saturating_sub(d.config.addr.0);
    Span {
        addr,
        first: MemTool::blocks_in(offset, d.config.block_size),
        blocks,
        offset: offset / MemTool::MIB,
        size: blocks.saturating_mul(d.config.block_size) / MemTool::MIB,
    }
}

// A range of blocks from a block on.
fn span_from(block: u64, blocks: u64, d: Device) -> Span
    ensures { result ≡ span_from block blocks d }
{
    let offset = block.saturating_mul(d.config.block_size);
    span_at(d.config.addr.0.saturating_add(offset), blocks, d)
}

// No range.
fn no_span(d: Device) -> Span
    ensures { result ≡ no_span d }
{
    span_at(d.config.addr.0, 0, d)
}

// The blocks that the device waits for the host to discard.
#[tactic(auto, unfolding(crate::specs::Spans::pending_span))]
pub fn pending_span(pending: Pending, d: Device) -> Span
    ensures { result ≡ pending_span pending d }
{
    match pending {
        Pending::Discard { first, count, .. } => span_from(first, count, d),
        Pending::DiscardOne { block, .. } => span_from(block, 1, d),
        _ => no_span(d),
    }
}

// The range that a line is about.
#[tactic(auto, unfolding(crate::specs::Spans::op_span))]
pub fn op_span(op: Op, d: Device) -> Span
    ensures { result ≡ op_span op d }
{
    match op {
        Op::Host { .. } => pending_span(d.pending, d),
        Op::Range { addr, blocks, .. } => span_at(addr.0, blocks as u64, d),
        _ => no_span(d),
    }
}

// The number that the owner or the host brings.
#[tactic(auto, unfolding(crate::specs::Spans::brought))]
pub fn number_of(op: Op) -> u64
    ensures { result ≡ brought op }
{
    match op {
        Op::Host { addr, .. } => addr.0,
        Op::Size { mib } => mib,
        _ => 0,
    }
}

// The guest address of a creation.
pub fn created_at(d: Device, i: u64) -> u64
    ensures { result ≡ created_at d i }
{
    let from = RegionOffset::of_map_region(i).0;
    d.config.addr.0.saturating_add(from)
}

// The size of the last row of a creation: cut short by the region's end where it is the device's last.
fn last_size(region: u64, several: bool, last: u64) -> u64
    ensures { result ≡ cond (eqb (last + 1) (map_regions region several)) (region - last * map_region) map_region }
{
    let left = map_regions(region, several).saturating_sub(last);
    if left != 1 {
        return MemTool::MAP_REGION_SIZE;
    }
    region.saturating_sub(RegionOffset::of_map_region(last).0)
}

// The size of a creation.
pub fn created_size(d: Device, i: u64, last: u64) -> u64
    ensures { result ≡ created_size d i last }
{
    let others = RegionOffset::of_map_region(last.saturating_sub(i)).0;
    others.saturating_add(last_size(d.config.region_size, d.several, last))
}

// What the answered host address of a creation of these rows must have room for.
#[tactic(auto, unfolding(crate::specs::Spans::covered_by))]
fn covered_by(d: Device, i: u64, last: u64) -> u64
    ensures { result ≡ covered_by d i last }
{
    if !d.several {
        return d.config.region_size;
    }
    RegionOffset::of_map_region(last.saturating_add(1).saturating_sub(i)).0
}

// What the answered host address of what is pending must have room for, if that is a creation.
#[tactic(auto, unfolding(crate::specs::Spans::covered))]
pub fn covered_size(pending: Pending, d: Device) -> u64
    ensures { result ≡ covered pending d }
{
    match pending {
        Pending::Create { first, last } => covered_by(d, first, last),
        _ => 0,
    }
}
