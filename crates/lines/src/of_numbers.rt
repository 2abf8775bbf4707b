// The lines that need no state.
#![tactic(auto, using(crate::proofs::Lengths::widths, crate::proofs::Lines::line_refused))]

ghost use Rattle.std.specs.Prelude.{◌≡◌, ◌≤◌, length, IfOk};
ghost use Rattle.numbers.specs.Answers.{answer_of};
ghost use Rattle.numbers.specs.Rows.{first_of};
ghost use Rattle.lines.specs.Buffers.{line_limit, narrow, counts_line, places_line, totals_line, block_line, setup_line};
ghost use Rattle.lines.specs.Lines.{line_from};

use crate::LIMIT;
use crate::writing::Pen;
use numbers::Refusal;
use processors::Processors;
use protocol::Task;

// Refuses a buffer that is too short for a line.
fn judge_room(out: &[u8]) -> Result<(), Refusal>
    ensures refused { answer_of result ≡ first_of (narrow out.now) }
    ensures room { IfOk result (λ _. line_limit ≤ length out.now) }
{
    if out.len() < LIMIT {
        return Err(Refusal::BufferShort);
    }
    Ok(())
}

// The first line: the counts of processors and tasks, and the start.
pub fn counts_line(m: usize, n: usize, start: u32, out: &mut [u8]) -> Result<usize, Refusal>
    ensures { (line_from result, out.new) ≡ counts_line out.old m n start }
{
    judge_room(out)?;
    let mut pen = Pen::new(out);
    pen.put_numbered(b"processors ", m as u64);
    pen.put_numbered(b" tasks ", n as u64);
    pen.put_numbered(b" start ", u64::from(start));
    pen.put_text(b"\n");
    Ok(pen.at)
}

// An event's line, from its number and its snapshot. No more processors are shown than a state can have.
pub fn places_line(
    number: u64,
    count: usize,
    snapshot: &[u8],
    out: &mut [u8],
) -> Result<usize, Refusal>
    ensures { (line_from result, out.new) ≡ places_line out.old number count snapshot.now }
{
    judge_room(out)?;
    let mut pen = Pen::new(out);
    pen.put_number(number);
    pen.put_numbered(b" ", u64::from(input::byte_at(snapshot, 0)));
    pen.put_places(snapshot, count.min(Processors::LIMIT));
    pen.put_text(b"\n");
    Ok(pen.at)
}

// A task's line.
pub fn totals_line(t: u8, totals: [u32; Task::TOTALS], out: &mut [u8]) -> Result<usize, Refusal>
    ensures { (line_from result, out.new) ≡ totals_line out.old t totals }
{
    judge_room(out)?;
    let mut pen = Pen::new(out);
    pen.put_numbered(b"task ", u64::from(t));
    pen.put_totals(totals);
    pen.put_text(b"\n");
    Ok(pen.at)
}

// A refused block's line. As in the next one, any number can be printed, also one that no refusal has.
pub fn block_line(index: u64, refusal: u8, out: &mut [u8]) -> Result<usize, Refusal>
    ensures { (line_from result, out.new) ≡ block_line out.old index refusal }
{
    judge_room(out)?;
    let mut pen = Pen::new(out);
    pen.put_numbered(b"block ", index);
    pen.put_numbered(b" refused ", u64::from(refusal));
    pen.put_text(b"\n");
    Ok(pen.at)
}

// A refused set-up's line.
pub fn setup_line(refusal: u8, out: &mut [u8]) -> Result<usize, Refusal>
    ensures { (line_from result, out.new) ≡ setup_line out.old refusal }
{
    judge_room(out)?;
    let mut pen = Pen::new(out);
    pen.put_numbered(b"setup refused ", u64::from(refusal));
    pen.put_text(b"\n");
    Ok(pen.at)
}
