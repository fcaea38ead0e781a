// SPDX-License-Identifier: Apache-2.0 AND BSD-3-Clause
// What the static library exports: each call of the device and of its queue, with the record and the queue as words,
// the guest's side, and save records. Words that are no record, or no queue, are refused with 12. Numbers, flags and
// slices stay the parameters here, and a number the result, because this is the C interface.
#![tactic(auto)]

ghost use Rattle.std.specs.Prelude.{◌≡◌, []};
ghost use Rattle.bitmap.specs.Blocks.{blocks};
ghost use Rattle.making.specs.Made.{made};
ghost use Rattle.step.specs.Promise.{lent, place_on, resize_on, request_on, answer_on, read_on, write_on};
ghost use Rattle.driver.specs.Text.{Wrote};
ghost use Rattle.driver_words.specs.Told.{ResponseTold, ConfigTold, PlanTold};
ghost use Rattle.save_words.specs.Told.{length_from, WroteTold, SaveTold, RestoreTold, ToNewTold, ToOldTold};
ghost use Rattle.jambcopper.specs.Exports.{node_of, MadeIn, handed, Exported};
ghost use Rattle.jambcopper.specs.Queue.{new_queue, QueueMadeIn};
ghost use Rattle.jambcopper.specs.Queue.{queue_handed, serve_on, serve_answer_on, QueueExported};

use answer_words::{ANSWER_WORDS, number_of, pass_on, tell, tell_refused};
use device::{read_config, write_config};
use driver::write_request;
use driver_words::{tell_config, tell_plan, tell_response};
use making::Mem;
use placing::{place, set_requested_size};
use queue::{Taking, next_taking, queue_refusal, settle, took_head};
use queue_words::{QUEUE_WORDS, decode_queue, encode_queue, ending_told, tell_queue};
use refusal::{Refusal, code};
use rings::Queue;
use save_words::{tell_new, tell_old, tell_restore, tell_save, tell_save_length};
use serving::{host_answer, request};
use units::{GuestAddr, HostAddr};
use wire::VirtioMemReq;
use words::{RECORD_WORDS, decode, encode, encode_answer, encode_request};

// The node of a device, if one is given.
fn node_of(node_given: bool, node: u16) -> Option<u16>
    ensures { result ≡ node_of node_given node }
{
    node_given.then_some(node)
}

// Makes a device from sizes in MiB. Words that have no room for a record are refused with 12.
pub fn jambcopper_make(
    words: &mut [u64],
    capacity_mib: u64,
    requested_mib: u64,
    several: bool,
    node_given: bool,
    node: u16,
    boot: u64,
) -> u64
    ensures { MadeIn words.old (made capacity_mib requested_mib several (node_of node_given node) boot) result
        words.new }
{
    let too_short = words.len() < RECORD_WORDS;
    if too_short {
        return Refusal::NoShape.number();
    }
    let which = node_of(node_given, node);
    match Mem::new(capacity_mib, requested_mib, several, which, boot) {
        Err(refusal) => refusal.number(),
        Ok(d) => {
            encode(d, words);
            0
        }
    }
}

// Places the device.
pub fn jambcopper_place(
    words: &mut [u64],
    bitmap: &mut [u8],
    table: &mut [u64],
    start: u64,
    size: u64,
    slots: &[u32],
    answer: &mut [u64],
) -> u64
    ensures { Exported (place_on start size slots.now)
        (handed words.old answer.old (lent bitmap.old table.old []))
        (handed words.new answer.new (lent bitmap.new table.new [])) result }
{
    let Some(d) = decode(&words[..]) else {
        return tell_refused(Refusal::NoShape, answer);
    };
    let s = place(d, bitmap, table, GuestAddr(start), size, slots);
    encode(s.device, words);
    tell(s.answer, answer)
}

// Changes the requested size.
pub fn jambcopper_set_requested_size(
    words: &mut [u64],
    bitmap: &[u8],
    table: &[u64],
    requested_mib: u64,
    answer: &mut [u64],
) -> u64
    ensures { Exported (resize_on requested_mib)
        (handed words.old answer.old (lent bitmap.now table.now []))
        (handed words.new answer.new (lent bitmap.now table.now [])) result }
{
    let Some(d) = decode(&words[..]) else {
        return tell_refused(Refusal::NoShape, answer);
    };
    let s = set_requested_size(d, bitmap, table, requested_mib);
    encode(s.device, words);
    tell(s.answer, answer)
}

// One chain of the guest.
pub fn jambcopper_request(
    words: &mut [u64],
    bitmap: &mut [u8],
    table: &[u64],
    mem: &mut [u8],
    base: u64,
    descriptors: u64,
    head: u16,
    answer: &mut [u64],
) -> u64
    ensures { Exported (request_on base descriptors head)
        (handed words.old answer.old
        (lent bitmap.old table.now mem.old))
        (handed words.new answer.new
        (lent bitmap.new table.now mem.new)) result }
{
    let Some(d) = decode(&words[..]) else {
        return tell_refused(Refusal::NoShape, answer);
    };
    let s = request(
        d,
        bitmap,
        table,
        mem,
        GuestAddr(base),
        GuestAddr(descriptors),
        head,
    );
    encode_request(s.device, words);
    tell(s.answer, answer)
}

// The host's answer to what it was asked.
pub fn jambcopper_host_answer(
    words: &mut [u64],
    bitmap: &mut [u8],
    table: &mut [u64],
    mem: &mut [u8],
    base: u64,
    ok: bool,
    host: u64,
    answer: &mut [u64],
) -> u64
    ensures { Exported (answer_on base ok host)
        (handed words.old answer.old
        (lent bitmap.old table.old mem.old))
        (handed words.new answer.new
        (lent bitmap.new table.new mem.new)) result }
{
    let Some(d) = decode(&words[..]) else {
        return tell_refused(Refusal::NoShape, answer);
    };
    let s = host_answer(d, bitmap, table, mem, GuestAddr(base), ok, HostAddr(host));
    encode_answer(s.device, words);
    tell(s.answer, answer)
}

// Makes a queue from the addresses of its three parts. Words that have no room for a queue are refused with 12.
pub fn jambcopper_queue_make(queue: &mut [u64], descriptors: u64, available: u64, used: u64) -> u64
    ensures { QueueMadeIn queue.old (new_queue descriptors available used) result queue.new }
{
    if queue.len() < QUEUE_WORDS {
        return Refusal::NoShape.number();
    }
    let q = Queue {
        descriptors: GuestAddr(descriptors),
        available: GuestAddr(available),
        used: GuestAddr(used),
        next_available: 0,
        next_used: 0,
        taken: None,
    };
    encode_queue(q, queue);
    0
}

// The next head of the queue.
pub fn jambcopper_serve(
    words: &mut [u64],
    queue: &mut [u64],
    bitmap: &mut [u8],
    table: &[u64],
    mem: &mut [u8],
    base: u64,
    answer: &mut [u64],
) -> u64
    ensures { QueueExported (serve_on base)
        (queue_handed queue.old (handed words.old answer.old
        (lent bitmap.old table.now mem.old)))
        (queue_handed queue.new (handed words.new answer.new
        (lent bitmap.new table.now mem.new))) result }
{
    let Some(d) = decode(&words[..]) else {
        return tell_refused(Refusal::NoShape, answer);
    };
    let Some(q) = decode_queue(&queue[..]) else {
        return tell_refused(Refusal::NoShape, answer);
    };
    match next_taking(d, q, bitmap.len(), table.len(), &mem[..], GuestAddr(base)) {
        Taking::NoHead(told) => tell_queue(told, answer),
        Taking::Walk(head) => {
            // Words of its own: those that are lent may be too few to read the head's ending from.
            let mut told = [0; ANSWER_WORDS];
            let number = jambcopper_request(
                words,
                bitmap,
                table,
                mem,
                base,
                q.descriptors.0,
                head,
                &mut told,
            );
            let ending = ending_told(told);
            let now = settle(ending, head, q, took_head(q, head), mem, GuestAddr(base));
            encode_queue(now, queue);
            pass_on(told, answer);
            number
        }
    }
}

// The host's answer to what it was asked; it may end the request of the head that is out.
pub fn jambcopper_serve_answer(
    words: &mut [u64],
    queue: &mut [u64],
    bitmap: &mut [u8],
    table: &mut [u64],
    mem: &mut [u8],
    base: u64,
    ok: bool,
    host: u64,
    answer: &mut [u64],
) -> u64
    ensures { QueueExported (serve_answer_on base ok host)
        (queue_handed queue.old (handed words.old answer.old
        (lent bitmap.old table.old mem.old)))
        (queue_handed queue.new (handed words.new answer.new
        (lent bitmap.new table.new mem.new))) result }
{
    let Some(d) = decode(&words[..]) else {
        return tell_refused(Refusal::NoShape, answer);
    };
    let Some(q) = decode_queue(&queue[..]) else {
        return tell_refused(Refusal::NoShape, answer);
    };
    if let Err(refusal) = queue_refusal(
        d,
        q,
        bitmap.len(),
        table.len(),
        &mem[..],
        GuestAddr(base),
    ) {
        return tell_refused(refusal, answer);
    }
    let taken = q.taken;
    let Some(head) = taken else {
        return jambcopper_host_answer(words, bitmap, table, mem, base, ok, host, answer);
    };
    let mut told = [0; ANSWER_WORDS];
    let number = jambcopper_host_answer(words, bitmap, table, mem, base, ok, host, &mut told);
    let ending = ending_told(told);
    let now = settle(ending, head, q, q, mem, GuestAddr(base));
    encode_queue(now, queue);
    pass_on(told, answer);
    number
}

// Reads the config.
pub fn jambcopper_read_config(words: &[u64], offset: u64, data: &mut [u8]) -> u64
    ensures { Exported (read_on offset)
        (handed words.now [] (lent [] [] «data».old))
        (handed words.now [] (lent [] [] «data».new)) result }
{
    let Some(d) = decode(words) else {
        return Refusal::NoShape.number();
    };
    let s = read_config(d, offset, data);
    number_of(s.answer)
}

// Writes the config, which does nothing.
pub fn jambcopper_write_config(words: &[u64], offset: u64, data: &[u8]) -> u64
    ensures { Exported (write_on offset)
        (handed words.now [] (lent [] [] «data».now))
        (handed words.now [] (lent [] [] «data».now)) result }
{
    let Some(d) = decode(words) else {
        return Refusal::NoShape.number();
    };
    let s = write_config(d, offset, data);
    number_of(s.answer)
}

// The guest's side: writes a request.
pub fn jambcopper_driver_write_request(
    bytes: &mut [u8],
    req_type: u16,
    addr: u64,
    nb_blocks: u16,
) -> u64
    ensures { Wrote (record { req_type = req_type; addr = record { 0 = addr }; nb_blocks = nb_blocks })
        bytes.old bytes.new result }
{
    let req = VirtioMemReq {
        req_type,
        addr: GuestAddr(addr),
        nb_blocks,
    };
    code(write_request(bytes, req))
}

// The guest's side: reads a response.
pub fn jambcopper_driver_read_response(bytes: &[u8], response: &mut [u64]) -> u64
    ensures { ResponseTold bytes.now response.old response.new result }
{
    code(tell_response(bytes, response))
}

// The guest's side: reads a config.
pub fn jambcopper_driver_read_config(bytes: &[u8], config: &mut [u64]) -> u64
    ensures { ConfigTold bytes.now config.old config.new result }
{
    code(tell_config(bytes, config))
}

// The guest's side: proposes the next plug.
pub fn jambcopper_driver_plan(config: &[u8], bitmap: &[u8], plug: &mut [u64]) -> u64
    ensures { PlanTold config.now (blocks bitmap.now) plug.old plug.new result }
{
    code(tell_plan(config, bitmap, plug))
}

// How long the device's text is.
pub fn jambcopper_save_length(words: &[u64], bitmap: &[u8], length: &mut [u64]) -> u64
    ensures { WroteTold (length_from words.now bitmap.now length.old)
        length.old length.new result }
{
    tell_save_length(words, bitmap, length)
}

// Saves the device as a text.
pub fn jambcopper_save(words: &[u64], bitmap: &[u8], text: &mut [u8], length: &mut [u64]) -> u64
    ensures { SaveTold words.now bitmap.now
        text.old text.new length.old length.new result }
{
    tell_save(words, bitmap, text, length)
}

// Restores the state of a text onto the device.
pub fn jambcopper_restore(words: &mut [u64], bitmap: &mut [u8], text: &[u8]) -> u64
    ensures { RestoreTold text.now words.old words.new
        bitmap.old bitmap.new result }
{
    tell_restore(words, bitmap, text)
}

// Moves a save record of the old form into a text.
pub fn jambcopper_old_to_new(
    fields: &[u64],
    old: &[u8],
    scratch: &mut [u8],
    text: &mut [u8],
    length: &mut [u64],
) -> u64
    ensures { ToNewTold fields.now old.now scratch.old scratch.new
        text.old text.new length.old length.new result }
{
    tell_new(fields, old, scratch, text, length)
}

// Moves a text into a save record of the old form.
pub fn jambcopper_new_to_old(
    text: &[u8],
    scratch: &mut [u8],
    old: &mut [u8],
    fields: &mut [u64],
) -> u64
    ensures { ToOldTold text.now scratch.old scratch.new
        old.old old.new fields.old fields.new result }
{
    tell_old(text, scratch, old, fields)
}
