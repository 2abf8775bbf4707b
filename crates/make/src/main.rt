// The maker of block files: a scenario from standard input, the blocks of its file to standard output. What is wrong
// with the scenario goes to standard error, and ends the output.
#![tactic(auto)]

mod faults;

ghost use Rattle.std.specs.Prelude.{◌≤◌, IfOk, length};

use blocks::Block;
use scenario::{Draft, Item, Taken};
use std::io;
use std::io::{ErrorKind, Read, Write};
use std::process::ExitCode;

// The buffer for the text: a line and its line feed fit.
const TEXT: usize = 65536;

// More turns than any text takes: every turn but the last reads a byte or more.
const MOST_TURNS: u64 = u64::MAX;

// Why the output ends before the scenario does: something is wrong, which standard error says, or nobody reads the
// output any more.
#[derive(Clone, Copy, Debug, PartialEq, Eq)]
enum Ended {
    Said,
    Stopped,
}

// A scenario partly read: the draft of its file, and how many lines were read; where the file's blocks go, and what is
// wrong with the scenario.
#[derive(Drop)]
struct Maker<'a, O, T> {
    draft: Draft,
    lines: u64,
    out: &'a mut O,
    told: &'a mut T,
}

impl<'a, O: Write, T: Write> Maker<'a, O, T> {
    // Nothing is read yet.
    fn new(out: &'a mut O, told: &'a mut T) -> Maker<'a, O, T> {
        Maker {
            draft: scenario::begin(),
            lines: 0,
            out,
            told,
        }
    }

    // Writes a block.
    fn put(&mut self, block: &[u8]) -> Result<(), Ended> {
        match self.out.write_all(block) {
            Ok(()) => Ok(()),
            Err(error) if error.kind() == ErrorKind::BrokenPipe => Err(Ended::Stopped),
            Err(_) => {
                faults::say(self.told, faults::UNWRITTEN);
                Err(Ended::Said)
            }
        }
    }

    // Keeps what became of an item, and writes the block that it completed, if any.
    fn keep(&mut self, taken: Taken, block: &[u8]) -> Result<(), Ended> {
        match taken {
            Taken::Kept(draft) => self.draft = draft,
            Taken::Written(draft) => {
                self.put(block)?;
                self.draft = draft;
            }
        }
        Ok(())
    }

    // Takes one line.
    fn take_line(&mut self, line: &[u8]) -> Result<(), Ended> {
        let mut block = [0u8; Block::SIZE];
        self.lines = self.lines.wrapping_add(1);
        match scenario::take_item(self.draft, scenario::read_line(line), &mut block) {
            Ok(taken) => self.keep(taken, &block),
            Err(trouble) => {
                faults::say_line(self.told, self.lines, line, trouble);
                Err(Ended::Said)
            }
        }
    }

    // Takes each line whose line feed was read; returns what is left, which is no whole line.
    fn take_lines<'b>(&mut self, text: &'b [u8]) -> Result<&'b [u8], Ended>
        ensures { IfOk result (λ rest. length rest.now ≤ length text.now) }
    {
        let mut rest = text;
        while let Some(at) = rest.iter().position(|byte| *byte == b'\n') {
            self.take_line(&rest[..at])?;
            rest = &rest[at + 1..];
        }
        Ok(rest)
    }

    // The end of the text, perhaps within a line; it completes the last block.
    fn take_end(&mut self, rest: &[u8]) -> Result<(), Ended> {
        if !rest.is_empty() {
            self.take_line(rest)?;
        }
        let mut block = [0u8; Block::SIZE];
        match scenario::take_item(self.draft, Item::Block, &mut block) {
            Ok(taken) => self.keep(taken, &block),
            Err(trouble) => {
                faults::say_end(self.told, trouble);
                Err(Ended::Said)
            }
        }
    }

    // Reads more of the text; returns how much.
    fn read_more(&mut self, input: &mut impl Read, room: &mut [u8]) -> Result<usize, Ended>
        ensures { IfOk result (λ more. more ≤ length room.new) }
    {
        match input.read(room) {
            Ok(more) => Ok(more),
            Err(_) => {
                faults::say(self.told, faults::UNREAD);
                Err(Ended::Said)
            }
        }
    }

    // Makes the file of the whole scenario.
    fn make_file(&mut self, input: &mut impl Read) -> Result<(), Ended> {
        // There is no heap: what is read and not yet taken is the buffer's first `held` bytes.
        let mut text = [0u8; TEXT];
        let mut held = 0;
        for _ in 0..MOST_TURNS {
            if held == TEXT {
                faults::say_long(self.told, self.lines.wrapping_add(1));
                return Err(Ended::Said);
            }
            let more = self.read_more(input, &mut text[held..])?;
            if more == 0 {
                return self.take_end(&text[..held]);
            }
            let now = held + more;
            held = self.take_lines(&text[..now])?.len();
            text.copy_within(now - held..now, 0);
        }
        Ok(())
    }
}

fn main(rt: HostRuntime) -> ExitCode {
    let mut out = rt.stdout();
    let mut told = rt.stderr();
    match Maker::new(&mut out, &mut told).make_file(&mut rt.reader()) {
        Ok(()) | Err(Ended::Said) => ExitCode::SUCCESS,
        Err(Ended::Stopped) => ExitCode::from(streams::STOPPED),
    }
}
