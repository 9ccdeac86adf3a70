// The program over the journal: it reads a line's fields, makes the call, and writes its answer.
#![tactic(auto)]

mod args;
mod calls;
mod change_calls;
mod failure;
mod pool_calls;
mod site;
mod split_call;

use calls::make_call;
use failure::Failure;
use journal::calls::Call;
use journal::fault::{Fault, Wrong};
use journal::fields::Fields;
use journal::input::{Input, Over};
use journal::output::Pen;
use journal::{answer, line};
use site::Site;
use std::io::{IsTerminal, Stdin, Stdout, Write};
use std::process::Process;
use std::rt::Files;

// What a run carries from line to line: input and the line's number, its fields, the site, the answers, and whether people type the lines, which is
// asked once, before a terminal can go away. Standard input and output have no equality.
#[derive(Drop)]
struct Run {
    input: Input,
    line: u64,
    fields: Fields,
    site: Site,
    pen: Pen,
    terminal: bool,
}

impl Run {
    fn new(stdin: Stdin, stdout: Stdout) -> Self {
        Self {
            input: Input::new(stdin),
            line: 1,
            fields: Fields::new(),
            site: Site::new(),
            pen: Pen::new(stdout),
            terminal: stdin.is_terminal(),
        }
    }

    // Passes a line's end. The answers are written out, unless a whole line is at hand: so they are out before the program waits.
    fn new_line(&mut self) -> bool {
        self.input.pass_byte();
        self.line = self.line.wrapping_add(1);
        if !self.input.has_line() {
            self.pen.flush();
        }
        self.pen.is_ok()
    }

    // Reads a line that is a call, makes it and answers; says whether another line may follow.
    fn call_line(&mut self, rt: &impl Files, process: Process) -> Result<bool, Wrong> {
        let line = line::read_line(&mut self.input, &mut self.fields)?;
        match make_call(
            line.call,
            rt,
            process,
            &mut self.site,
            &mut self.fields,
            &mut self.pen,
        ) {
            Ok(()) => {}
            Err(Failure::Refused(refusal)) => answer::refused(&mut self.pen, refusal),
            Err(Failure::Wrong(wrong)) => return Err(Wrong {
                call: Some(line.call),
                field: Some(wrong.field),
                fault: wrong.fault,
            }),
        }
        Ok(line.more && line.call != Call::Quit)
    }

    // A call, a comment, or a line's end; says whether the run goes on.
    fn step(&mut self, rt: &impl Files, process: Process) -> Result<bool, Wrong> {
        match self.input.next_byte()? {
            None => Ok(false),
            Some(b'\n') => Ok(self.new_line()),
            Some(b'#') => {
                // The line's end is left to the next step, which reads again where a read failed or the input ended.
                let _ = self.input.pass_over(Over::Line);
                Ok(true)
            }
            Some(_) => self.call_line(rt, process),
        }
    }

    // Says what is wrong with a line. On a terminal, as long as that can be read, its rest is passed over, and the run goes on.
    fn pass_wrong(&mut self, wrong: &Wrong) -> bool {
        answer::wrong(&mut self.pen, self.line, wrong);
        self.terminal
            && wrong.fault != Fault::NoInput
            && matches!(self.input.pass_over(Over::Line), Ok(Some(_)))
    }

    // Answers line after line until the input ends, `quit` or a wrong line ends it, or the answers can't be written.
    fn run(&mut self, rt: &impl Files, process: Process) {
        // So many lines at most, which no input has: a loop has to end, and no bound of the input is known.
        for _ in 0..u64::MAX {
            let goes_on = match self.step(rt, process) {
                Ok(goes_on) => goes_on,
                Err(wrong) => self.pass_wrong(&wrong),
            };
            if !goes_on {
                break;
            }
        }
        self.pen.flush();
    }
}

fn main(rt: HostRuntime) {
    let mut run = Run::new(rt.stdin(), rt.stdout());
    run.run(&rt, rt.process());
    if !run.pen.is_ok() {
        let _ = rt
            .stderr()
            .write_all(b"mirror: standard output can't be written\n");
    }
}
