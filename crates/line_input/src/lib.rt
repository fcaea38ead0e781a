// SPDX-License-Identifier: Apache-2.0 AND BSD-3-Clause
// The lines of an input that comes in pieces, each answered as soon as it has ended (R12.11).
#![tactic(auto)]

ghost use Rattle.std.specs.Prelude.{ℕ, List, [], ◌∷◌, None, Option, OnOk};
ghost use Rattle.line_input.specs.Lines.{last_of, Answers, AnswersInput, Goes};

use std::alloc::Allocator;
use std::io;
use std::io::Read;

// So many bytes are kept of a line: one more than a line may have.
const KEPT: usize = 201;

// What one read can bring.
const ROOM: usize = 65536;

// Who answers lines.
pub trait AnswerLine {
    // The lines that were answered, where they are known.
    ghost answered: { Self → Option (List (List ℕ)) } = { λ _. None };

    // Answers a line, which comes without its newline. Of one that is longer than 200 bytes it has 201.
    fn answer(&mut self, line: &[u8]) -> io::Result<()>
        ensures { OnOk result (Answers (answered self.old) (answered self.new) (line.now ∷ [])) };

    // Writes the answers that are still held.
    fn flush(&mut self) -> io::Result<()>
        ensures { OnOk result (Answers (answered self.old) (answered self.new) []) };
}

// One byte of input. What passes the room of a line is dropped: a full line is no line, whatever follows.
fn take<A: Allocator, T: AnswerLine>(line: &mut Vec<u8, A>, b: u8, to: &mut T) -> io::Result<()>
    ensures { OnOk result (Goes line.old.items (T.answered to.old) (b ∷ [])
        line.new.items (T.answered to.new)) }
{
    if b == b'\n' {
        to.answer(line.as_slice())?;
        line.clear();
    } else if line.len() < KEPT {
        line.push(b)?;
    }
    Ok(())
}

// The bytes that one read brought.
fn take_all<A: Allocator, T: AnswerLine>(
    line: &mut Vec<u8, A>,
    piece: &[u8],
    to: &mut T,
) -> io::Result<()>
    ensures { OnOk result (Goes line.old.items (T.answered to.old) piece.now
        line.new.items (T.answered to.new)) }
{
    for b in piece {
        take(line, *b, to)?;
    }
    Ok(())
}

// The end of the input: a last line may lack its newline.
fn finish<A: Allocator, T: AnswerLine>(line: &Vec<u8, A>, to: &mut T) -> io::Result<()>
    ensures { OnOk result (Answers (T.answered to.old) (T.answered to.new)
        (last_of line.now.items)) }
{
    let last = line.as_slice();
    if last.is_empty() {
        return Ok(());
    }
    to.answer(last)
}

// Answers each line of an input: those that have ended are answered, and the answers written, before the next read.
pub fn answer_lines<A: Allocator, R: Read, T: AnswerLine>(
    alloc: A,
    from: &mut R,
    to: &mut T,
) -> io::Result<()>
    ensures { OnOk result (AnswersInput (R.remaining from.old)
        (T.answered to.old) (T.answered to.new)) }
{
    let mut line = Vec::with_capacity(alloc, KEPT)?;
    let mut piece = [0; ROOM];
    // Nothing says that an input ends, and a proved loop has to: so this one has more turns than any run uses up.
    for _ in 0..u64::MAX {
        let n = from.read(&mut piece)?;
        if n == 0 {
            return finish(&line, to);
        }
        take_all(&mut line, &piece[..n], to)?;
        to.flush()?;
    }
    Err(io::Error::from(io::ErrorKind::FileTooLarge))
}
