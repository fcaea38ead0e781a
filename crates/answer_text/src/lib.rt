// SPDX-License-Identifier: Apache-2.0 AND BSD-3-Clause
// Answers to house lines of a trace. Each line is defined by its text, in specs/Texts.antt.
#![tactic(auto)]

ghost use Rattle.text.specs.Putting.{Put};
ghost use Rattle.answer_text.specs.Texts.{create_text, discard_text, sized_text, response_text, refusal_text};

use units::{GuestAddr, HostAddr, RegionOffset};

// Each function below puts the text of an answer at the start of a buffer. It answers the length of the text, and one
// more than the buffer's where there is no room for it; 200 bytes are room enough. One function over a table of forms
// would be no plainer: each has the form and the values of one answer, and a name, in a line.

pub fn put_create(out: &mut [u8], guest: GuestAddr, size: u64, slot: u64) -> usize
    ensures { Put out.old 0 (create_text guest size slot) out.new result }
{
    forms::put_form(
        out,
        b"want=create guest=# size=# slot=#",
        &[guest.0, size, slot],
    )
}

pub fn put_discard(out: &mut [u8], offset: RegionOffset, size: u64, host: HostAddr) -> usize
    ensures { Put out.old 0 (discard_text offset size host) out.new result }
{
    forms::put_form(
        out,
        b"want=discard offset=# size=# host=#",
        &[offset.0, size, host.0],
    )
}

pub fn put_sized(out: &mut [u8], requested: u64, usable: u64) -> usize
    ensures { Put out.old 0 (sized_text requested usable) out.new result }
{
    forms::put_form(out, b"sized=0 requested=# usable=#", &[requested, usable])
}

pub fn put_response(
    out: &mut [u8],
    resp: u16,
    state: u16,
    plugged: u64,
    usable: u64,
    why: u64,
) -> usize
    ensures { Put out.old 0 (response_text resp state plugged usable why) out.new result }
{
    forms::put_form(
        out,
        b"resp=# state=# plugged=# usable=# why=#",
        &[resp as u64, state as u64, plugged, usable, why],
    )
}

pub fn put_refusal(out: &mut [u8], number: u64) -> usize
    ensures { Put out.old 0 (refusal_text number) out.new result }
{
    forms::put_form(out, b"refuse=#", &[number])
}
