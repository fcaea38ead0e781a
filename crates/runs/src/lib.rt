// SPDX-License-Identifier: Apache-2.0 AND BSD-3-Clause
// The runs of plugged blocks as text, one line for each longest run: written from a packed bitmap, counted, and laid
// on a bitmap.
#![tactic(auto)]

ghost use Rattle.std.specs.Prelude.{◌≡◌, ◌*◌, ◌<◌, min, take, drop, length};
ghost use Rattle.units.specs.Numbers.{saturated};
ghost use Rattle.text.specs.Putting.{Put};
ghost use Rattle.bitmap.specs.Blocks.{blocks};
ghost use Rattle.runs.specs.Runs.{runs_of};
ghost use Rattle.runs.specs.Text.{line_of, runs_text};
ghost use Rattle.runs.specs.Next.{InARow, IsNext};
ghost use Rattle.runs.specs.Reading.{IsRunLine, run_ok, Counts, Lays};

use bitmap::{next_clear, next_set};
use units::sum_within;

// How many bytes a run's line has room for: more than any has.
const LINE: usize = 64;

// A run of set blocks: its first block, and how many there are.
#[derive(Clone, Copy, Debug, PartialEq, Eq)]
struct NextRun {
    first: usize,
    count: usize,
}

// How many blocks a bitmap of this length has among the first `end`.
fn blocks_within(len: usize, end: usize) -> usize
    ensures { result ≡ min end (8 * len) }
{
    end.min(len.saturating_mul(8))
}

// How many set blocks stand in a row from `first` on, among the first `end`.
fn count_from(bitmap: &[u8], first: usize, end: usize) -> usize
    requires { first < length (take end (blocks bitmap.now)) }
    ensures { InARow (take end (blocks bitmap.now)) first result }
{
    match next_clear(bitmap, first, end) {
        Some(stop) => stop - first,
        None => blocks_within(bitmap.len(), end) - first,
    }
}

// The next run from `from` on, among the first `end` blocks. Bytes without a set block, and those with no other, are
// passed at once.
fn next_run(bitmap: &[u8], from: usize, end: usize) -> Option<NextRun>
    ensures { IsNext (take end (blocks bitmap.now)) from result }
{
    let first = next_set(bitmap, from, end)?;
    Some(NextRun {
        first,
        count: count_from(bitmap, first, end),
    })
}

// Puts the runs of set blocks among the first `end`. The lines go into a lent buffer: there is no heap for a String.
pub fn put_runs(out: &mut [u8], at: usize, bitmap: &[u8], end: usize) -> usize
    ensures { Put out.old at
        (runs_text (runs_of (take end (blocks bitmap.now)))) out.new result }
{
    let mut to = forms::within(at, out.len());
    let mut i = 0;
    while let Some(run) = next_run(bitmap, i, end) {
        to = forms::put_form_at(out, to, b"run=#,#\n", &[run.first as u64, run.count as u64]);
        i = run.first + run.count;
    }
    to
}

// How long a run's line is.
fn line_length(first: u64, count: u64) -> u64
    ensures { result ≡ length (line_of first count) }
{
    let mut line = [0u8; LINE];
    forms::put_form_at(&mut line, 0, b"run=#,#\n", &[first, count]) as u64
}

// How long the text is of the runs of set blocks among the first `end`.
pub fn runs_length(bitmap: &[u8], end: usize) -> u64
    ensures { result ≡ saturated (length (runs_text (runs_of (take end (blocks bitmap.now))))) }
{
    let mut sum: u64 = 0;
    let mut i = 0;
    while let Some(run) = next_run(bitmap, i, end) {
        sum = sum.saturating_add(line_length(run.first as u64, run.count as u64));
        i = run.first + run.count;
    }
    sum
}

// A run's line, and where the text goes on.
#[derive(Clone, Copy, Debug, PartialEq, Eq)]
struct RunLine {
    first: u64,
    count: u64,
    next: usize,
}

impl RunLine {
    // Whether a run is not empty, begins at `from` or after and ends at `end` or before.
    #[tactic(auto, unfolding(crate::specs::Reading::run_ok))]
    fn is_ok(self, from: u64, end: u64) -> bool
        ensures { result ≡ run_ok self.first self.count from end }
    {
        from <= self.first && 0 < self.count && sum_within(self.first, self.count, end)
    }
}

// The run's line at a position of a text.
fn run_at(s: &[u8], at: usize) -> Option<RunLine>
    ensures { IsRunLine s.now (drop at s.now) result }
{
    let mut v = [0u64; 2];
    let next = forms::scan_at(s, at, b"run=#,#\n", &mut v)?;
    let [first, count] = v;
    Some(RunLine { first, count, next })
}

// Whether the text from a position on is that of runs that neither touch nor fall back, none past block `end`; and
// how many blocks they have. The position goes by hand: each line says where the next one begins, and what is no line
// is refused.
pub fn count_runs(s: &[u8], at: usize, end: u32) -> Option<u64>
    ensures { Counts 0 end 0 (drop at s.now) result }
{
    let mut i = at;
    let mut from = 0;
    let mut sum = 0;
    while i < s.len() {
        let run = run_at(s, i)?;
        if !run.is_ok(from, end as u64) {
            return None;
        }
        sum += run.count;
        from = run.first + run.count + 1;
        i = run.next;
    }
    Some(sum)
}

// Sets the blocks of the runs that stand in a text from a position on.
pub fn lay_runs(s: &[u8], at: usize, bitmap: &mut [u8])
    ensures { Lays (drop at s.now) bitmap.old bitmap.new }
{
    let mut i = at;
    while let Some(run) = run_at(s, i) {
        bitmap::set_range(bitmap, run.first as usize, run.count as usize, true);
        i = run.next;
    }
}
