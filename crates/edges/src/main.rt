// The edge cases: files of blocks from standard input, each stepped through as the stepping program does, and then
// edges that no file can show, as calls.
#![tactic(auto)]

mod answers;
mod calls;
mod engines;
mod files;
mod hostile;
mod page_calls;
mod parts;
mod printed;
mod reporting;
mod scenarios;
mod writing;

use std::io;

fn main(rt: HostRuntime) -> io::Result<()> {
    files::run_all(&rt, &mut rt.reader())?;
    calls::run_all(&rt)?;
    answers::run_all(&rt)?;
    page_calls::run_all(&rt)?;
    parts::run_all(&rt)?;
    writing::run_all(&rt)?;
    scenarios::run_all(&rt)?;
    engines::run_all(&rt)
}
