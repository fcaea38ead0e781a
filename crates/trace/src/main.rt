// SPDX-License-Identifier: Apache-2.0 AND BSD-3-Clause
// Replays a trace: house lines from the standard input, each on the device, and its answers as house lines.
//
// A refusal in the first line ends the run; what follows is read and not served. A bad first line is refused as 13, as
// any bad line is: one of more than 200 bytes, an empty one, one with a NUL byte, and a later one in the first line's
// form. After a bad later line the run goes on. The last line may lack its newline, as that of the file stdin does.
// Input without a byte prints nothing.
#![tactic(auto)]

use line_input::{AnswerLine, answer_lines};
use std::io;
use std::io::{BufWriter, Write};
use trace_run::{Run, first_bytes, serve};

// How many bytes of answers are held before they are written.
const ROOM: usize = 65536;

// A run, with what it lends to the device and to the guest, and where its answers go.
#[derive(Drop)]
struct Session<W: Write + Drop> {
    run: Run,
    bitmap: [u8; 32768],
    table: [u64; 1536],
    mem: [u8; 128],
    to: W,
}

impl<W: Write + Drop> Session<W> {
    // A run before its first line.
    fn new(to: W) -> Session<W> {
        Session {
            run: Run::Before,
            bitmap: [0; 32768],
            table: [0; 1536],
            mem: [0; 128],
            to,
        }
    }
}

impl<W: Write + Drop> AnswerLine for Session<W> {
    // The line is served, and what it prints goes into the output.
    fn answer(&mut self, line: &[u8]) -> io::Result<()> {
        let mut out = [0; 256];
        let shown = serve(
            self.run,
            &mut self.bitmap,
            &mut self.table,
            &mut self.mem,
            line,
            &mut out,
        );
        self.run = shown.run;
        self.to.write_all(first_bytes(&out, shown.length))
    }

    fn flush(&mut self) -> io::Result<()> {
        self.to.flush()
    }
}

fn main(rt: HostRuntime) -> io::Result<()> {
    let to = BufWriter::with_capacity(rt.alloc(), ROOM, io::writer(&rt))?;
    let mut session = Session::new(to);
    answer_lines(rt.alloc(), &mut rt.reader(), &mut session)?;
    session.flush()
}
