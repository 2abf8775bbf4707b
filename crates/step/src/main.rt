// The stepping program: blocks from standard input, a page of lines for each to standard output. What went wrong is
// said in one line on standard error: `not read`, `not written`, or `refused`, of a block or the set-up.
#![tactic(auto)]

use blocks::Block;
use pages::{Engine, Page, Session};
use std::env::Env;
use std::io;
use std::io::{ErrorKind, Read};
use std::process::ExitCode;

// The argument that asks for the plain engine.
const PLAIN: [u8; 7] = *b"--plain";

// Why the work ended before the output did: a read or a write failed, or nobody reads the output any more.
#[derive(Clone, Copy, Debug, PartialEq, Eq)]
enum Failure {
    NotRead,
    NotWritten,
    Stopped,
}

// What a write that failed is.
fn write_failure(error: io::Error) -> Failure {
    if error.kind() == ErrorKind::BrokenPipe {
        Failure::Stopped
    } else {
        Failure::NotWritten
    }
}

// Says what went wrong. Where not even that can be written, nobody is told.
fn say(rt: &impl Eprint, what: &str) {
    let _ = eprintln!(rt; "{what}");
}

// Writes a page; the session after it says whether something was refused.
fn write_page(rt: &(impl Print + Eprint), text: &[u8], session: Session) -> Result<(), Failure> {
    rt.write_all(text).map_err(write_failure)?;
    if session.refused {
        say(rt, "refused");
    }
    Ok(())
}

// Reads the next block, writes its page, and returns the session after it. A short block is the last one. The buffer is
// long enough for any page.
fn take_block(
    rt: &(impl Print + Eprint),
    input: &mut impl Read,
    session: Session,
    block: &mut [u8],
    out: &mut [u8],
    engine: Engine,
) -> Result<Session, Failure> {
    let got = streams::read_full(input, block).map_err(|_| Failure::NotRead)?;
    let page = pages::next_page(session, &block[..got], out, engine).unwrap_or(Page {
        session,
        len: 0,
    });
    write_page(rt, &out[..page.len], page.session)?;
    Ok(page.session)
}

// Takes one block after the other, until the output ends.
fn take_blocks(
    rt: &(impl Print + Eprint),
    input: &mut impl Read,
    engine: Engine,
) -> Result<(), Failure> {
    let mut block = [0u8; Block::SIZE];
    let mut out = [0u8; Page::LIMIT];
    let mut session = pages::begin();
    // One block more than a file may have, and the input's end.
    for _ in 0..Block::LAST_INDEX + 3 {
        session = take_block(rt, input, session, &mut block, &mut out, engine)?;
        if session.over {
            break;
        }
    }
    Ok(())
}

// Says why the work ended, and returns the program's exit status.
fn tell(rt: &impl Eprint, failure: Failure) -> ExitCode {
    match failure {
        Failure::NotRead => say(rt, "not read"),
        Failure::NotWritten => say(rt, "not written"),
        Failure::Stopped => return ExitCode::from(streams::STOPPED),
    }
    ExitCode::SUCCESS
}

// The engine that is asked for: the plain one, if the program's first argument is `--plain`.
fn engine_asked(rt: &impl Env) -> Engine {
    let mut word = [0u8; PLAIN.len() + 1];
    match rt.arg(1, &mut word) {
        Ok(len) if word[..len] == PLAIN[..] => Engine::Plain,
        _ => Engine::Locking,
    }
}

fn main(rt: HostRuntime) -> ExitCode {
    match take_blocks(&rt, &mut rt.reader(), engine_asked(&rt)) {
        Ok(()) => ExitCode::SUCCESS,
        Err(failure) => tell(&rt, failure),
    }
}
