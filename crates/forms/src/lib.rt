// SPDX-License-Identifier: Apache-2.0 AND BSD-3-Clause
// Lines by their forms: a form is a text in which # stands for a number.
#![tactic(auto)]

ghost use Rattle.std.specs.Prelude.{◌≡◌, ◌+◌, min, drop};
ghost use Rattle.text.specs.Putting.{Put};
ghost use Rattle.forms.specs.Forms.{filled};
ghost use Rattle.forms.specs.Scanning.{scan_of, Scanned, ScannedAt};

const HOLE: u8 = b'#';

// Whether a filled form stands at a position of a text, and where the text goes on; the numbers that stand in its
// holes go into `values`.
pub fn scan_at(s: &[u8], at: usize, form: &[u8], values: &mut [u64]) -> Option<usize>
    ensures { ScannedAt values.old s.now (scan_of form.now (drop at s.now)) result
        values.new }
{
    let mut i = at.min(s.len());
    let mut k = 0;
    for t in form {
        if *t == HOLE {
            if values.len() <= k {
                return None;
            }
            let number = text::read_number(s, i)?;
            values[k] = number.value;
            k += 1;
            i = number.next;
        } else {
            let Some(byte) = s.get(i) else {
                return None;
            };
            if *byte != *t {
                return None;
            }
            i += 1;
        }
    }
    Some(i)
}

// Whether a text is a filled form; the numbers that stand in its holes go into `values`.
pub fn scan(s: &[u8], form: &[u8], values: &mut [u64]) -> bool
    ensures { Scanned values.old (scan_of form.now s.now) result values.new }
{
    match scan_at(s, 0, form, values) {
        Some(i) => s.len() <= i,
        None => false,
    }
}

// A position of a buffer of this length, and one past its end for any past it.
pub fn within(at: usize, len: usize) -> usize
    ensures { result ≡ min at (len + 1) }
{
    at.min(len.saturating_add(1))
}

// Puts a form with numbers in its holes into a lent buffer, at a position: there is no heap for a String.
pub fn put_form_at(out: &mut [u8], at: usize, form: &[u8], values: &[u64]) -> usize
    ensures { Put out.old at (filled form.now values.now) out.new result }
{
    let mut to = within(at, out.len());
    let mut k = 0;
    for b in form {
        if *b == HOLE {
            to = text::put_number(out, to, values.get(k).copied().unwrap_or(0));
            k += 1;
        } else {
            to = text::put(out, to, *b);
        }
    }
    to
}

// Puts a form with numbers in its holes at the start of a buffer.
pub fn put_form(out: &mut [u8], form: &[u8], values: &[u64]) -> usize
    ensures { Put out.old 0 (filled form.now values.now) out.new result }
{
    put_form_at(out, 0, form, values)
}
