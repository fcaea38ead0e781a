// SPDX-License-Identifier: Apache-2.0 AND BSD-3-Clause
// A line of a trace, explained: what is shown of it, its answer, and one sentence. A buffer and a position in it, and
// bitmap, table and guest memory, stay parameters of their own, as `forms` and `trace_run` take them: all are lent.
#![tactic(auto)]

ghost use Rattle.std.specs.Prelude.{◌≡◌, take};
ghost use Rattle.text.specs.Putting.{Put};
ghost use Rattle.step.specs.Promise.{lent};
ghost use Rattle.explaining.specs.Explaining.{visible, visibles, cut_text, shown_text};
ghost use Rattle.explaining.specs.Explaining.{no_device, device_in, Explains};

use forms::put_form_at;
use record::{Device, Pending};
use sentences::put_sentence;
use spans::Records;
use text::put;
use trace_run::{Run, Shown, first_bytes, serve};
use trace_text::read_line;
use wire::VirtioMemConfig;

// R12.1.
const LONGEST: usize = 200;

// What a line has come to, with the length of its answer, and the length of its sentence.
#[derive(Clone, Copy)]
pub struct Explained {
    pub shown: Shown,
    pub said: usize,
}

// The byte that is shown for a byte.
#[tactic(auto, unfolding(crate::specs::Explaining::visible))]
fn shown_as(x: u8) -> u8
    ensures { result ≡ visible x }
{
    if (32 <= x) & (x <= 126) { x } else { b'?' }
}

// Puts the first bytes of a line, as they are shown.
fn put_visible(out: &mut [u8], at: usize, line: &[u8]) -> usize
    ensures { Put out.old at (visibles (take 200 line.now)) out.new result }
{
    let mut to = forms::within(at, out.len());
    let first = first_bytes(line, LONGEST);
    for x in first {
        to = put(out, to, shown_as(*x));
    }
    to
}

// Says that a line is cut, where it is.
fn put_cut(out: &mut [u8], at: usize, length: usize) -> usize
    ensures { Put out.old at (cut_text length) out.new result }
{
    if length <= LONGEST {
        return put_form_at(out, at, b"", &[]);
    }
    put_form_at(out, at, b" (cut: the line is longer)", &[])
}

// Puts a line as it is shown, at a position of a buffer. It answers the next position, and one past the buffer's length
// where there is no room.
pub fn put_shown(out: &mut [u8], at: usize, line: &[u8]) -> usize
    ensures { Put out.old at (shown_text line.now) out.new result }
{
    let to = put_visible(out, at, line);
    put_cut(out, to, line.len())
}

// The record of a run that has no device.
fn no_device() -> Device
    ensures { result ≡ no_device }
{
    Device {
        config: VirtioMemConfig::new(0, 0, 0, 0),
        alignment: 0,
        several: false,
        avail_features: 0,
        placed: false,
        pending: Pending::Nothing,
    }
}

// The device on which a run stands, or another.
#[tactic(auto, unfolding(crate::specs::Explaining::device_in))]
fn device_in(run: Run, other: Device) -> Device
    ensures { result ≡ device_in run other }
{
    match run {
        Run::On(device) => device,
        _ => other,
    }
}

// One line of a run: its bytes without their newline go in. The line that it prints comes out at the start of `out`,
// with its newline, and its sentence at the start of `said`, without one. A length is one more than the buffer's where
// there is no room for it; 201 bytes are room enough.
pub fn explain(
    run: Run,
    bitmap: &mut [u8],
    table: &mut [u64],
    mem: &mut [u8],
    line: &[u8],
    out: &mut [u8],
    said: &mut [u8],
) -> Explained
    ensures { Explains run line.now
        (lent bitmap.old table.old mem.old)
        (lent bitmap.new table.new mem.new)
        out.old out.new said.old said.new result }
{
    let read = read_line(line);
    let shown = serve(run, bitmap, table, mem, line, out);
    let after = device_in(shown.run, no_device());
    let before = device_in(run, after);
    let records = Records { before, after };
    let said = put_sentence(said, 0, read, records, &bitmap[..], shown.answer);
    Explained { shown, said }
}
