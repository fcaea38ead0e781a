// SPDX-License-Identifier: Apache-2.0 AND BSD-3-Clause
// The static library, for C and Rust: each function of the crate `jambcopper` under its own name, with its own promise.
// Numbers, flags and slices stay the parameters here, and a number the result, because this is the C interface.
#![tactic(auto)]

ghost use Rattle.std.specs.Prelude.{[]};
ghost use Rattle.bitmap.specs.Blocks.{blocks};
ghost use Rattle.making.specs.Made.{made};
ghost use Rattle.step.specs.Promise.{lent, place_on, resize_on, request_on, answer_on, read_on, write_on};
ghost use Rattle.driver.specs.Text.{Wrote};
ghost use Rattle.driver_words.specs.Told.{ResponseTold, ConfigTold, PlanTold};
ghost use Rattle.save_words.specs.Told.{length_from, WroteTold, SaveTold, RestoreTold, ToNewTold, ToOldTold};
ghost use Rattle.jambcopper.specs.Exports.{node_of, MadeIn, handed, Exported};
ghost use Rattle.jambcopper.specs.Queue.{new_queue, QueueMadeIn};
ghost use Rattle.jambcopper.specs.Queue.{queue_handed, serve_on, serve_answer_on, QueueExported};

// Makes a device from sizes in MiB. Words that have no room for a record are refused with 12.
#[unsafe(no_mangle)]
pub extern "C" fn jambcopper_make(
    words: &mut [u64],
    capacity_mib: u64,
    requested_mib: u64,
    several: bool,
    node_given: bool,
    node: u16,
    boot: u64,
) -> u64
    ensures { MadeIn words.old (made capacity_mib requested_mib several (node_of node_given node) boot) result
        words.new }
{
    jambcopper::jambcopper_make(
        words,
        capacity_mib,
        requested_mib,
        several,
        node_given,
        node,
        boot,
    )
}

// Places the device.
#[unsafe(no_mangle)]
pub extern "C" fn jambcopper_place(
    words: &mut [u64],
    bitmap: &mut [u8],
    table: &mut [u64],
    start: u64,
    size: u64,
    slots: &[u32],
    answer: &mut [u64],
) -> u64
    ensures { Exported (place_on start size slots.now)
        (handed words.old answer.old (lent bitmap.old table.old []))
        (handed words.new answer.new (lent bitmap.new table.new [])) result }
{
    jambcopper::jambcopper_place(words, bitmap, table, start, size, slots, answer)
}

// Changes the requested size.
#[unsafe(no_mangle)]
pub extern "C" fn jambcopper_set_requested_size(
    words: &mut [u64],
    bitmap: &[u8],
    table: &[u64],
    requested_mib: u64,
    answer: &mut [u64],
) -> u64
    ensures { Exported (resize_on requested_mib)
        (handed words.old answer.old (lent bitmap.now table.now []))
        (handed words.new answer.new (lent bitmap.now table.now [])) result }
{
    jambcopper::jambcopper_set_requested_size(words, bitmap, table, requested_mib, answer)
}

// One chain of the guest.
#[unsafe(no_mangle)]
pub extern "C" fn jambcopper_request(
    words: &mut [u64],
    bitmap: &mut [u8],
    table: &[u64],
    mem: &mut [u8],
    base: u64,
    descriptors: u64,
    head: u16,
    answer: &mut [u64],
) -> u64
    ensures { Exported (request_on base descriptors head)
        (handed words.old answer.old
        (lent bitmap.old table.now mem.old))
        (handed words.new answer.new
        (lent bitmap.new table.now mem.new)) result }
{
    jambcopper::jambcopper_request(words, bitmap, table, mem, base, descriptors, head, answer)
}

// The host's answer to what it was asked.
#[unsafe(no_mangle)]
pub extern "C" fn jambcopper_host_answer(
    words: &mut [u64],
    bitmap: &mut [u8],
    table: &mut [u64],
    mem: &mut [u8],
    base: u64,
    ok: bool,
    host: u64,
    answer: &mut [u64],
) -> u64
    ensures { Exported (answer_on base ok host)
        (handed words.old answer.old
        (lent bitmap.old table.old mem.old))
        (handed words.new answer.new
        (lent bitmap.new table.new mem.new)) result }
{
    jambcopper::jambcopper_host_answer(words, bitmap, table, mem, base, ok, host, answer)
}

// Makes a queue from the addresses of its three parts. Words that have no room for a queue are refused with 12.
#[unsafe(no_mangle)]
pub extern "C" fn jambcopper_queue_make(
    queue: &mut [u64],
    descriptors: u64,
    available: u64,
    used: u64,
) -> u64
    ensures { QueueMadeIn queue.old (new_queue descriptors available used) result queue.new }
{
    jambcopper::jambcopper_queue_make(queue, descriptors, available, used)
}

// The next head of the queue.
#[unsafe(no_mangle)]
pub extern "C" fn jambcopper_serve(
    words: &mut [u64],
    queue: &mut [u64],
    bitmap: &mut [u8],
    table: &[u64],
    mem: &mut [u8],
    base: u64,
    answer: &mut [u64],
) -> u64
    ensures { QueueExported (serve_on base)
        (queue_handed queue.old (handed words.old answer.old
        (lent bitmap.old table.now mem.old)))
        (queue_handed queue.new (handed words.new answer.new
        (lent bitmap.new table.now mem.new))) result }
{
    jambcopper::jambcopper_serve(words, queue, bitmap, table, mem, base, answer)
}

// The host's answer to what it was asked; it may end the request of the head that is out.
#[unsafe(no_mangle)]
pub extern "C" fn jambcopper_serve_answer(
    words: &mut [u64],
    queue: &mut [u64],
    bitmap: &mut [u8],
    table: &mut [u64],
    mem: &mut [u8],
    base: u64,
    ok: bool,
    host: u64,
    answer: &mut [u64],
) -> u64
    ensures { QueueExported (serve_answer_on base ok host)
        (queue_handed queue.old (handed words.old answer.old
        (lent bitmap.old table.old mem.old)))
        (queue_handed queue.new (handed words.new answer.new
        (lent bitmap.new table.new mem.new))) result }
{
    jambcopper::jambcopper_serve_answer(words, queue, bitmap, table, mem, base, ok, host, answer)
}

// Reads the config.
#[unsafe(no_mangle)]
pub extern "C" fn jambcopper_read_config(words: &[u64], offset: u64, data: &mut [u8]) -> u64
    ensures { Exported (read_on offset)
        (handed words.now [] (lent [] [] «data».old))
        (handed words.now [] (lent [] [] «data».new)) result }
{
    jambcopper::jambcopper_read_config(words, offset, data)
}

// Writes the config, which does nothing.
#[unsafe(no_mangle)]
pub extern "C" fn jambcopper_write_config(words: &[u64], offset: u64, data: &[u8]) -> u64
    ensures { Exported (write_on offset)
        (handed words.now [] (lent [] [] «data».now))
        (handed words.now [] (lent [] [] «data».now)) result }
{
    jambcopper::jambcopper_write_config(words, offset, data)
}

// The guest's side: writes a request.
#[unsafe(no_mangle)]
pub extern "C" fn jambcopper_driver_write_request(
    bytes: &mut [u8],
    req_type: u16,
    addr: u64,
    nb_blocks: u16,
) -> u64
    ensures { Wrote (record { req_type = req_type; addr = record { 0 = addr }; nb_blocks = nb_blocks })
        bytes.old bytes.new result }
{
    jambcopper::jambcopper_driver_write_request(bytes, req_type, addr, nb_blocks)
}

// The guest's side: reads a response.
#[unsafe(no_mangle)]
pub extern "C" fn jambcopper_driver_read_response(bytes: &[u8], response: &mut [u64]) -> u64
    ensures { ResponseTold bytes.now response.old response.new result }
{
    jambcopper::jambcopper_driver_read_response(bytes, response)
}

// The guest's side: reads a config.
#[unsafe(no_mangle)]
pub extern "C" fn jambcopper_driver_read_config(bytes: &[u8], config: &mut [u64]) -> u64
    ensures { ConfigTold bytes.now config.old config.new result }
{
    jambcopper::jambcopper_driver_read_config(bytes, config)
}

// The guest's side: proposes the next plug.
#[unsafe(no_mangle)]
pub extern "C" fn jambcopper_driver_plan(config: &[u8], bitmap: &[u8], plug: &mut [u64]) -> u64
    ensures { PlanTold config.now (blocks bitmap.now) plug.old plug.new result }
{
    jambcopper::jambcopper_driver_plan(config, bitmap, plug)
}

// How long the device's text is.
#[unsafe(no_mangle)]
pub extern "C" fn jambcopper_save_length(words: &[u64], bitmap: &[u8], length: &mut [u64]) -> u64
    ensures { WroteTold (length_from words.now bitmap.now length.old)
        length.old length.new result }
{
    jambcopper::jambcopper_save_length(words, bitmap, length)
}

// Saves the device as a text.
#[unsafe(no_mangle)]
pub extern "C" fn jambcopper_save(
    words: &[u64],
    bitmap: &[u8],
    text: &mut [u8],
    length: &mut [u64],
) -> u64
    ensures { SaveTold words.now bitmap.now
        text.old text.new length.old length.new result }
{
    jambcopper::jambcopper_save(words, bitmap, text, length)
}

// Restores the state of a text onto the device.
#[unsafe(no_mangle)]
pub extern "C" fn jambcopper_restore(words: &mut [u64], bitmap: &mut [u8], text: &[u8]) -> u64
    ensures { RestoreTold text.now words.old words.new
        bitmap.old bitmap.new result }
{
    jambcopper::jambcopper_restore(words, bitmap, text)
}

// Moves a save record of the old form into a text.
#[unsafe(no_mangle)]
pub extern "C" fn jambcopper_old_to_new(
    fields: &[u64],
    old: &[u8],
    scratch: &mut [u8],
    text: &mut [u8],
    length: &mut [u64],
) -> u64
    ensures { ToNewTold fields.now old.now scratch.old scratch.new
        text.old text.new length.old length.new result }
{
    jambcopper::jambcopper_old_to_new(fields, old, scratch, text, length)
}

// Moves a text into a save record of the old form.
#[unsafe(no_mangle)]
pub extern "C" fn jambcopper_new_to_old(
    text: &[u8],
    scratch: &mut [u8],
    old: &mut [u8],
    fields: &mut [u64],
) -> u64
    ensures { ToOldTold text.now scratch.old scratch.new
        old.old old.new fields.old fields.new result }
{
    jambcopper::jambcopper_new_to_old(text, scratch, old, fields)
}
