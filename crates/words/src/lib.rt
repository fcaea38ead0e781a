// SPDX-License-Identifier: Apache-2.0 AND BSD-3-Clause
// The record as words, for callers that have no enums: what is no encoding of a record is told apart from one.
#![tactic(auto)]

ghost use Rattle.std.specs.Prelude.{◌≡◌, ◌≤◌, length, Some};
ghost use Rattle.little_endian.specs.Bytes.{put};
ghost use Rattle.words.specs.Record.{record_length, bit, flag_of, pending_call, decoded_of, words_of, pending_words};
ghost use Rattle.words.specs.Record.{after_request, after_answer};

use record::{Device, Pending};
use units::GuestAddr;
use wire::VirtioMemConfig;

// A record's length in words.
pub const RECORD_WORDS: usize = 15;

fn bit(flag: bool) -> u64
    ensures { result ≡ bit flag }
{
    u64::from(flag)
}

// The flag that a word is, if it is one.
fn flag_of(word: u64) -> Option<bool>
    ensures { result ≡ flag_of word }
{
    match word {
        0 => Some(false),
        1 => Some(true),
        _ => None,
    }
}

// The pending call that four words mean: a known kind, and 0 in each word that the kind has no use for. The kinds are
// numbers here because the record is words at the C interface.
#[tactic(auto, unfolding(crate::specs::Record::pending_call))]
fn call_of(kind: u64, first: u64, second: u64, status: u64) -> Option<Pending>
    ensures { result ≡ pending_call kind first second status }
{
    match (kind, first, second, status) {
        (0, 0, 0, 0) => Some(Pending::Nothing),
        (1, first, last, 0) => Some(Pending::Create { first, last }),
        (2, first, count, status) => Some(Pending::Discard {
            first,
            count,
            status: GuestAddr(status),
        }),
        (3, block, 0, status) => Some(Pending::DiscardOne {
            block,
            status: GuestAddr(status),
        }),
        _ => None,
    }
}

// The record that words begin with, if they do.
pub fn decode(words: &[u64]) -> Option<Device>
    ensures { result ≡ decoded_of words.now }
{
    let &[
        block_size,
        node,
        start,
        region_size,
        usable_region_size,
        plugged_size,
        requested_size,
        alignment,
        several,
        avail_features,
        placed,
        kind,
        first,
        second,
        status,
        ..
    ] = words
    else {
        return None;
    };
    Some(Device {
        config: VirtioMemConfig {
            block_size,
            node_id: u16::try_from(node).ok()?,
            addr: GuestAddr(start),
            region_size,
            usable_region_size,
            plugged_size,
            requested_size,
        },
        alignment,
        several: flag_of(several)?,
        avail_features,
        placed: flag_of(placed)?,
        pending: call_of(kind, first, second, status)?,
    })
}

// `what` from the first word on; none past the end.
pub fn write_words(words: &mut [u64], what: &[u64])
    ensures { words.new ≡ put words.old 0 what.now }
{
    let n = words.len().min(what.len());
    words[..n].copy_from_slice(&what[..n]);
}

// N words from the first on, each stored at once where there is room for all; none past the end.
pub fn write_all<const N: usize>(words: &mut [u64], all: [u64; N])
    ensures { words.new ≡ put words.old 0 all.entry }
{
    if words.len() < N {
        // A copy is lent, so that the compiler lays down no word before it is stored where there is room.
        let lent = all;
        write_words(words, &lent);
    } else {
        words[..N].copy_from_slice(&all);
    }
}

// A pending call as four words.
fn pending_words(pending: Pending) -> [u64; 4]
    ensures { result ≡ pending_words pending }
{
    match pending {
        Pending::Nothing => [0, 0, 0, 0],
        Pending::Create { first, last } => [1, first, last, 0],
        Pending::Discard {
            first,
            count,
            status,
        } => [2, first, count, status.0],
        Pending::DiscardOne { block, status } => [3, block, 0, status.0],
    }
}

// Writes a record as words; none past the end.
pub fn encode(d: Device, words: &mut [u64])
    ensures words_after { words.new ≡ put words.old 0 (words_of d) }
    ensures words_after_2 { record_length ≤ length words.old → decoded_of words.new ≡ Some d }
{
    let [kind, first, second, status] = pending_words(d.pending);
    let all: [u64; RECORD_WORDS] = [
        d.config.block_size,
        u64::from(d.config.node_id),
        d.config.addr.0,
        d.config.region_size,
        d.config.usable_region_size,
        d.config.plugged_size,
        d.config.requested_size,
        d.alignment,
        bit(d.several),
        d.avail_features,
        bit(d.placed),
        kind,
        first,
        second,
        status,
    ];
    write_words(words, &all);
}

// Writes of a record what a request may change; nothing where there is no room for a record.
pub fn encode_request(d: Device, words: &mut [u64])
    ensures { words.new ≡ after_request words.old d }
{
    if words.len() < RECORD_WORDS {
        return;
    }
    words[5] = d.config.plugged_size;
    words[11..RECORD_WORDS].copy_from_slice(&pending_words(d.pending));
}

// Writes of a record what a host's answer may change; nothing where there is no room for a record.
pub fn encode_answer(d: Device, words: &mut [u64])
    ensures { words.new ≡ after_answer words.old d }
{
    if words.len() < RECORD_WORDS {
        return;
    }
    let c = d.config;
    words[4] = c.usable_region_size;
    words[5] = c.plugged_size;
    words[10] = bit(d.placed);
    words[11..RECORD_WORDS].copy_from_slice(&pending_words(d.pending));
}
