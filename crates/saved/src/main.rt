// SPDX-License-Identifier: Apache-2.0 AND BSD-3-Clause
// Save records on the standard input, for a person on call: a text becomes old bytes, or is only checked, and old
// bytes become a text. What is wrong is one line on the standard error: the number that it is refused as, where, and
// why. Then nothing else is written.
#![tactic(auto)]

ghost use Rattle.std.specs.Prelude.{◌≡◌};
ghost use Rattle.saved.specs.Telling.{TellsWrong};

use finding::{Found, check_old, check_text};
use old_form::{to_new, to_old};
use refusal::Refusal;
use save::Fields;
use std::env::FillError;
use std::fmt::{Display, Formatter};
use std::io::{Read, Write};
use std::rt::Env;
use std::{fmt, io};
use units::MemTool;

mod finding; // where it is wrong
mod saying; // why, in words

// No text of a state is as long as this, so one that does not fit is refused for what fits.
const ROOM: usize = 2097152;

// The first bytes, where there are so many.
fn front(s: &[u8], count: usize) -> &[u8] {
    s.get(..count).unwrap_or(s)
}

// What a text or old bytes are refused for, and what is found wrong with them.
#[derive(Clone, Copy)]
pub struct Wrong {
    refusal: Refusal,
    found: Option<Found>,
}

impl Wrong {
    // A text that is refused.
    fn in_text(refusal: Refusal, text: &[u8]) -> Wrong
        ensures { result.refusal ≡ refusal }
    {
        Wrong {
            refusal,
            found: check_text(text).err(),
        }
    }
}

impl Display for Wrong {
    fn fmt<W: fmt::Write>(&self, f: &mut Formatter<W>) -> fmt::Result {
        let number = self.refusal.number();
        match self.found {
            Some(found) => write!(f, "{number}: {found}"),
            // No promise says that what is refused is found; on every input that was tried it is.
            None => write!(f, "{number}: "),
        }
    }
}

// What is wrong with a text. `save::check` decides.
fn look(text: &[u8]) -> Result<(), Wrong>
    ensures { TellsWrong text.now result }
{
    match save::check(text) {
        Ok(_) => Ok(()),
        Err(why) => Err(Wrong::in_text(why, text)),
    }
}

// The old bytes of a text, which go into a buffer with room for them.
fn old_of<'a>(text: &[u8], scratch: &mut [u8], old: &'a mut [u8]) -> Result<&'a [u8], Wrong> {
    look(text)?;
    match to_old(text, scratch, old) {
        Ok(f) => Ok(front(old, MemTool::blocks_in(f.region, f.block) as usize)),
        Err(refusal) => Err(Wrong::in_text(refusal, text)),
    }
}

// The text of old bytes with these fields, which goes into a buffer with room for it.
fn text_of<'a>(
    f: Fields,
    old: &[u8],
    scratch: &mut [u8],
    text: &'a mut [u8],
) -> Result<&'a [u8], Wrong> {
    match to_new(f, old, scratch, text) {
        Ok(n) => Ok(front(text, n as usize)),
        Err(refusal) => Err(Wrong {
            refusal,
            found: check_old(old, f).err(),
        }),
    }
}

// What the program is asked to do.
#[derive(Clone, Copy)]
enum Task {
    Move,
    Check,
    Old(Fields),
}

// An argument, if it is there. One that is longer than any that is asked for is taken as an empty one.
fn argument<'a>(rt: &impl Env, i: usize, room: &'a mut [u8]) -> Option<&'a [u8]> {
    match rt.arg(i, room) {
        Ok(n) => Some(front(room, n)),
        Err(FillError::TooLong) => Some(&[]),
        Err(FillError::NotPresent) => None,
    }
}

fn is_there(rt: &impl Env, i: usize) -> bool {
    argument(rt, i, &mut [0; 64]).is_some()
}

fn is_word(rt: &impl Env, i: usize, word: &[u8]) -> bool {
    argument(rt, i, &mut [0; 64]) == Some(word)
}

// The number that an argument of a form with one hole gives.
fn number_in(rt: &impl Env, i: usize, form: &[u8]) -> Option<u64> {
    let mut room = [0; 64];
    let mut numbers = [0; 1];
    let is_of_form = forms::scan(argument(rt, i, &mut room)?, form, &mut numbers);
    let [number] = numbers;
    is_of_form.then_some(number)
}

// The fields, each an argument as its line in a text.
fn fields_in(rt: &impl Env) -> Option<Fields> {
    Some(Fields {
        block: MemTool::BLOCK_SIZE,
        start: number_in(rt, 2, b"start=#")?,
        region: number_in(rt, 3, b"region=#")?,
        requested: number_in(rt, 4, b"requested=#")?,
        usable: number_in(rt, 5, b"usable=#")?,
        plugged: number_in(rt, 6, b"plugged=#")?,
    })
}

// What the arguments ask for, if they are right. None is kept, so that however many there are costs nothing.
fn task_in(rt: &impl Env) -> Option<Task> {
    if !is_there(rt, 1) {
        return Some(Task::Move);
    }
    if is_word(rt, 1, b"--check") && !is_there(rt, 2) {
        return Some(Task::Check);
    }
    if is_word(rt, 1, b"--old") && !is_there(rt, 7) {
        return Some(Task::Old(fields_in(rt)?));
    }
    None
}

// What is asked for, of what was read.
fn made<'a>(
    task: Task,
    input: &[u8],
    scratch: &mut [u8],
    out: &'a mut [u8],
) -> Result<&'a [u8], Wrong> {
    match task {
        Task::Move => old_of(input, scratch, out),
        Task::Old(fields) => text_of(fields, input, scratch, out),
        Task::Check => {
            look(input)?;
            Ok(b"ok\n")
        }
    }
}

// Reads until the buffer is full or no bytes come.
fn read_full<'a, R: Read>(from: &mut R, input: &'a mut [u8]) -> io::Result<&'a [u8]> {
    let mut filled = 0;
    while filled < input.len() {
        let n = from.read(&mut input[filled..])?;
        if n == 0 {
            break;
        }
        filled += n;
    }
    Ok(&input[..filled])
}

// Reads and makes what is asked for. What a check knows of an array's length it knows here from its type, at no cost.
fn lend<'a, R: Read>(
    task: Task,
    from: &mut R,
    input: &mut [u8; ROOM],
    scratch: &mut [u8; save::BITMAP],
    out: &'a mut [u8; ROOM],
) -> io::Result<Result<&'a [u8], Wrong>> {
    let input = read_full(from, input)?;
    Ok(made(task, input, scratch, out))
}

// Buffers are arrays, and nothing is allocated: so the program cannot run out of memory in between.
fn main(rt: HostRuntime) -> io::Result<()> {
    let Some(task) = task_in(&rt) else {
        return eprintln!(rt;
            "usage: bin/saved [--check] [FILE], or \
            bin/saved --old start=N region=N requested=N usable=N plugged=N [FILE]"
        );
    };
    let mut input = [0; ROOM];
    let mut scratch = [0; save::BITMAP];
    let mut out = [0; ROOM];
    match lend(task, &mut rt.reader(), &mut input, &mut scratch, &mut out)? {
        Ok(bytes) => match io::writer(&rt).write_all(bytes) {
            Ok(()) => Ok(()),
            Err(e) => eprintln!(rt; "the standard output: {e}"),
        },
        Err(wrong) => eprintln!(rt; "{wrong}"),
    }
}
