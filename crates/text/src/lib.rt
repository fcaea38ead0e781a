// SPDX-License-Identifier: Apache-2.0 AND BSD-3-Clause
// Numbers as text: read at a position of a lent slice, and put into a lent buffer.
#![tactic(auto)]

ghost use Rattle.std.specs.Prelude.{◌≡◌, ◌<◌, ◌∷◌, [], drop, unwrap_or, IfSome};
ghost use Rattle.text.specs.Decimal.{decimal};
ghost use Rattle.text.specs.Reading.{digit_of, more, bounded, answer_in, number_at};
ghost use Rattle.text.specs.Putting.{Put};

// A number that was read, and where the text goes on.
#[derive(Clone, Copy, Debug, PartialEq, Eq)]
pub struct Number {
    pub value: u64,
    pub next: usize,
}

// The digit at a position, if one stands there.
fn digit(s: &[u8], at: usize) -> Option<u64>
    ensures value { unwrap_or result 10 ≡ digit_of (drop at s.now) }
    ensures small { IfSome result (λ d. d < 10) }
{
    let x = *s.get(at)?;
    if !x.is_ascii_digit() {
        return None;
    }
    Some(u64::from(x - b'0'))
}

// The number whose first digits make `first`, with the digits at `from` and after. No sum is made that could wrap.
fn digits(s: &[u8], from: usize, first: u64) -> Option<Number>
    ensures { result ≡ answer_in s.now (bounded (more first (drop from s.now))) }
{
    let mut value = first;
    for next in from..s.len() {
        let Some(d) = digit(s, next) else {
            return Some(Number { value, next });
        };
        value = value.checked_mul(10)?.checked_add(d)?;
    }
    let next = s.len();
    Some(Number { value, next })
}

// The number at a position: decimal, without leading zeros, below 2^64.
pub fn read_number(s: &[u8], at: usize) -> Option<Number>
    ensures { result ≡ number_at s.now at }
{
    let first = digit(s, at)?;
    let next = at + 1;
    let leads = 0 < first;
    if leads {
        return digits(s, next, first);
    }
    match digit(s, next) {
        Some(_) => None,
        None => Some(Number { value: 0, next }),
    }
}

// Puts a byte into a buffer, where there is room for it. Texts go into lent buffers: there is no heap for a String.
pub fn put(out: &mut [u8], at: usize, b: u8) -> usize
    ensures { Put out.old at (b ∷ []) out.new result }
{
    if at < out.len() {
        out[at] = b;
        return at + 1;
    }
    out.len() + 1
}

// Puts a number into a buffer, in decimal without leading zeros.
pub fn put_number(out: &mut [u8], at: usize, n: u64) -> usize
    ensures { Put out.old at (decimal n) out.new result }
{
    if n < 10 {
        return put(out, at, b'0' + n as u8);
    }
    let to = put_number(out, at, n / 10);
    put(out, to, b'0' + (n % 10) as u8)
}
