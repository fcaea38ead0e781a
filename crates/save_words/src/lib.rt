// SPDX-License-Identifier: Apache-2.0 AND BSD-3-Clause
// Saving, restoring and both moves for callers that have no structs: the record and the fields as words. A slice
// without room for the words that a call gives or takes is refused with 18, before anything else, and a refused call
// writes no word.
#![tactic(auto)]

ghost use Rattle.std.specs.Prelude.{◌≡◌, ◌≤◌, length};
ghost use Rattle.save_words.specs.Told.{fields_length, fields_from, length_from};
ghost use Rattle.save_words.specs.Told.{WroteTold, SaveTold, RestoreTold, ToNewTold, ToOldTold};

use old_form::{to_new, to_old};
use refusal::Refusal;
use save::Fields;
use words::{decode, encode, write_words};

// The fields' length in words: block size, start, region, requested, usable and plugged size.
const FIELDS_WORDS: usize = 6;

// A text's length in words.
const LENGTH_WORDS: usize = 1;

// The fields that words begin with.
fn fields_of(words: &[u64]) -> Fields
    requires { fields_length ≤ length words.now }
    ensures { result ≡ fields_from words.now }
{
    Fields {
        block: words[0],
        start: words[1],
        region: words[2],
        requested: words[3],
        usable: words[4],
        plugged: words[5],
    }
}

// The number of what was written, whose length goes into a word.
fn tell_wrote(w: Result<u64, Refusal>, length: &mut [u64]) -> u64
    ensures { WroteTold w length.old length.new result }
{
    match w {
        Err(why) => why.number(),
        Ok(n) => {
            let all: [u64; LENGTH_WORDS] = [n];
            write_words(length, &all);
            0
        }
    }
}

// How long a device's text is. 18, 12, 7, 11, 18.
pub fn tell_save_length(words: &[u64], bitmap: &[u8], length: &mut [u64]) -> u64
    ensures { WroteTold (length_from words.now bitmap.now length.old)
        length.old length.new result }
{
    if length.len() < LENGTH_WORDS {
        return Refusal::NoState.number();
    }
    let Some(d) = decode(words) else {
        return Refusal::NoShape.number();
    };
    let w = saving::save_length(d, bitmap);
    tell_wrote(w, length)
}

// Saves a device. 18, 12, 7, 11, 18.
pub fn tell_save(words: &[u64], bitmap: &[u8], text: &mut [u8], length: &mut [u64]) -> u64
    ensures { SaveTold words.now bitmap.now text.old text.new
        length.old length.new result }
{
    if length.len() < LENGTH_WORDS {
        return Refusal::NoState.number();
    }
    let Some(d) = decode(words) else {
        return Refusal::NoShape.number();
    };
    let w = saving::save(d, bitmap, text);
    tell_wrote(w, length)
}

// Restores a state onto a device. 12, 7, 11, 19, 18.
pub fn tell_restore(words: &mut [u64], bitmap: &mut [u8], text: &[u8]) -> u64
    ensures { RestoreTold text.now words.old words.new
        bitmap.old bitmap.new result }
{
    let Some(d) = decode(&words[..]) else {
        return Refusal::NoShape.number();
    };
    match saving::restore(d, bitmap, text) {
        Err(why) => why.number(),
        Ok(laid) => {
            encode(laid, words);
            0
        }
    }
}

// Moves old bytes into a text. 18, 11, 18.
pub fn tell_new(
    fields: &[u64],
    old: &[u8],
    scratch: &mut [u8],
    text: &mut [u8],
    length: &mut [u64],
) -> u64
    ensures { ToNewTold fields.now old.now scratch.old scratch.new
        text.old text.new length.old length.new result }
{
    if fields.len() < FIELDS_WORDS {
        return Refusal::NoState.number();
    }
    if length.len() < LENGTH_WORDS {
        return Refusal::NoState.number();
    }
    let w = to_new(fields_of(fields), old, scratch, text);
    tell_wrote(w, length)
}

// Moves a text into old bytes. 18, 11, 19, 18.
pub fn tell_old(text: &[u8], scratch: &mut [u8], old: &mut [u8], fields: &mut [u64]) -> u64
    ensures { ToOldTold text.now scratch.old scratch.new
        old.old old.new fields.old fields.new result }
{
    if fields.len() < FIELDS_WORDS {
        return Refusal::NoState.number();
    }
    match to_old(text, scratch, old) {
        Err(why) => why.number(),
        Ok(f) => {
            let all: [u64; FIELDS_WORDS] = [
                f.block,
                f.start,
                f.region,
                f.requested,
                f.usable,
                f.plugged,
            ];
            write_words(fields, &all);
            0
        }
    }
}
