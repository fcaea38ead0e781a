// SPDX-License-Identifier: Apache-2.0 AND BSD-3-Clause
// Save records as text (R15): the fields, one a line, then the runs of plugged blocks. Written from a packed bitmap,
// and read back whole or not at all.
#![tactic(auto)]

ghost use Rattle.std.specs.Prelude.{◌≡◌, ◌+◌, ◌/◌, ltb, drop, length};
ghost use Rattle.text.specs.Putting.{Put};
ghost use Rattle.save.specs.Text.{shape_ok, head_text};
ghost use Rattle.save.specs.Writing.{valid_in, length_of, Writes};
ghost use Rattle.save.specs.Reading.{IsRuns, IsFields, IsHead, Checks, ReadsState};

use refusal::Refusal;
use runs::{count_runs, lay_runs, put_runs, runs_length};
use units::{GuestAddr, MemTool};
use wire::VirtioMemConfig;

// The bytes of the largest packed bitmap.
pub const BITMAP: usize = 32768;

// The form's number.
const FORM: u64 = 2;

// The line of the form's number, and those of the fields.
const FORM_LINE: &[u8] = b"form=#\n";

const FIELD_LINES: &[u8] = b"start=#\nregion=#\nrequested=#\nusable=#\nplugged=#\n";

// How many bytes a head has room for: more than any has.
const HEAD: usize = 256;

// What a save record says beside the blocks. The block size is not in the text of form 2.
#[derive(Clone, Copy, Debug, PartialEq, Eq)]
pub struct Fields {
    pub block: u64,
    pub start: u64,
    pub region: u64,
    pub requested: u64,
    pub usable: u64,
    pub plugged: u64,
}

// Whether a bitmap of this length has not a bit for each of n blocks.
pub fn is_short(len: usize, n: u64) -> bool
    ensures { result ≡ ltb len ((n + 7) / 8) }
{
    (len as u64) < n.div_ceil(8)
}

// Whether the fields are of the record's shape, with 128 MiB of alignment and one region.
pub fn shape_ok(f: Fields) -> bool
    ensures { result ≡ shape_ok f }
{
    record::config_shaped(VirtioMemConfig {
        block_size: f.block,
        node_id: 0,
        addr: GuestAddr(f.start),
        region_size: f.region,
        usable_region_size: f.usable,
        plugged_size: f.plugged,
        requested_size: f.requested,
    })
}

// Whether the fields and the region's blocks in a bitmap make a state.
fn valid(f: Fields, bitmap: &[u8]) -> bool
    ensures { result ≡ valid_in f bitmap.now }
{
    if !shape_ok(f) {
        return false;
    }
    let all = MemTool::blocks_in(f.region, f.block);
    let used = MemTool::blocks_in(f.usable, f.block);
    if !bitmap::all_in_state(bitmap, used as usize, (all - used) as usize, false) {
        return false;
    }
    let set = bitmap::count_set(bitmap, 0, all as usize);
    f.plugged == (set as u64) * f.block
}

// Puts the head: the form's number and the fields.
fn put_head(out: &mut [u8], f: Fields) -> usize
    ensures { Put out.old 0 (head_text 2 f) out.new result }
{
    let to = forms::put_form(out, FORM_LINE, &[FORM]);
    forms::put_form_at(
        out,
        to,
        FIELD_LINES,
        &[f.start, f.region, f.requested, f.usable, f.plugged],
    )
}

// How long the head is.
fn head_length(f: Fields) -> u64
    ensures { result ≡ length (head_text 2 f) }
{
    let mut head = [0u8; HEAD];
    put_head(&mut head, f) as u64
}

// How long the text is of a state whose blocks are the first of a packed bitmap. 11, 18.
pub fn text_length(f: Fields, bitmap: &[u8]) -> Result<u64, Refusal>
    ensures { result ≡ length_of f bitmap.now }
{
    let all = MemTool::blocks_in(f.region, f.block);
    if is_short(bitmap.len(), all) {
        return Err(Refusal::TooShort);
    }
    if !valid(f, bitmap) {
        return Err(Refusal::NoState);
    }
    Ok(head_length(f) + runs_length(bitmap, all as usize))
}

// Writes the text of a state whose blocks are the first of a packed bitmap. 11, 18; 18 too where the buffer is
// shorter than the text. The text goes into a lent buffer: there is no heap for a String.
pub fn write(f: Fields, bitmap: &[u8], out: &mut [u8]) -> Result<u64, Refusal>
    ensures { Writes f bitmap.now out.old out.new result }
{
    let n = text_length(f, bitmap)?;
    if (out.len() as u64) < n {
        return Err(Refusal::NoState);
    }
    let to = put_head(out, f);
    let all = MemTool::blocks_in(f.region, f.block);
    put_runs(out, to, bitmap, all as usize);
    Ok(n)
}

// What the head of a text says of a state, and where the state's runs start.
#[derive(Clone, Copy, Debug, PartialEq, Eq)]
pub struct State {
    pub fields: Fields,
    pub runs: usize,
}

// Whether the text from a position on is that of the runs of a state with these fields.
fn runs_of(f: Fields, s: &[u8], at: usize) -> Result<State, Refusal>
    ensures { IsRuns f at (drop at s.now) result }
{
    if !shape_ok(f) {
        return Err(Refusal::NoState);
    }
    let end = MemTool::blocks_in(f.usable, f.block);
    let n = count_runs(s, at, end as u32).ok_or(Refusal::NoState)?;
    let plugged = MemTool::blocks_in(f.plugged, f.block);
    if plugged != n {
        return Err(Refusal::NoState);
    }
    Ok(State {
        fields: f,
        runs: at,
    })
}

// The fields at a position of a text.
fn fields_at(s: &[u8], at: usize) -> Result<State, Refusal>
    ensures { IsFields s.now (drop at s.now) result }
{
    let mut v = [0u64; 5];
    let found = forms::scan_at(s, at, FIELD_LINES, &mut v);
    let runs = found.ok_or(Refusal::NoState)?;
    let [start, region, requested, usable, plugged] = v;
    let fields = Fields {
        block: MemTool::BLOCK_SIZE,
        start,
        region,
        requested,
        usable,
        plugged,
    };
    Ok(State { fields, runs })
}

// The head of a text. A later form is refused by name, before anything else is read.
fn head_of(s: &[u8]) -> Result<State, Refusal>
    ensures { IsHead s.now result }
{
    let mut v = [0u64; 1];
    let found = forms::scan_at(s, 0, FORM_LINE, &mut v);
    let at = found.ok_or(Refusal::NoState)?;
    let [form] = v;
    if FORM < form {
        return Err(Refusal::LaterForm);
    }
    if form != FORM {
        return Err(Refusal::NoState);
    }
    fields_at(s, at)
}

// Checks a text whole: the state that it is the text of, or why it is refused. 19, 18.
pub fn check(s: &[u8]) -> Result<State, Refusal>
    ensures { Checks s.now result }
{
    let head = head_of(s)?;
    runs_of(head.fields, s, head.runs)
}

// Reads the text of a state of at most so many blocks: they go into a packed bitmap, which has room for the largest
// region. 11, 19, 18.
pub fn read(s: &[u8], most: usize, bitmap: &mut [u8]) -> Result<Fields, Refusal>
    ensures { ReadsState s.now most bitmap.old bitmap.new result }
{
    if bitmap.len() < BITMAP {
        return Err(Refusal::TooShort);
    }
    let found = check(s)?;
    let f = found.fields;
    let all = MemTool::blocks_in(f.region, f.block);
    if (most as u64) < all {
        return Err(Refusal::NoState);
    }
    bitmap::set_range(bitmap, 0, all as usize, false);
    lay_runs(s, found.runs, bitmap);
    Ok(f)
}
