// How results are printed: numbers in a row, and what was written into a lent buffer.
use numbers::Refusal;
use std::io;

// What the buffers hold before they are lent: a byte that no line has.
pub const LENT: u8 = 7;

// A number, after a space.
pub fn print_number(rt: &impl Print, n: u64) -> io::Result<()> {
    print!(rt; " {n}")
}

// A number from the list.
pub fn print_answer(rt: &impl Print, answer: u8) -> io::Result<()> {
    print_number(rt, u64::from(answer))
}

// 1 for yes, 0 for no.
pub fn print_flag(rt: &impl Print, is: bool) -> io::Result<()> {
    print_answer(rt, u8::from(is))
}

// Ends the row.
pub fn end_row(rt: &impl Print) -> io::Result<()> {
    println!(rt; "")
}

// How many bytes from place `from` on are not as they were lent.
pub fn changed(out: &[u8], from: usize) -> u64 {
    out.iter().skip(from).filter(|byte| **byte != LENT).count() as u64
}

// A line's number and length, and how many bytes of the buffer were written.
pub fn print_line(rt: &impl Print, line: Result<usize, Refusal>, out: &[u8]) -> io::Result<()> {
    print_answer(rt, numbers::answer_of(&line))?;
    print_number(rt, line.unwrap_or(0) as u64)?;
    print_number(rt, changed(out, 0))
}

// The first line of a text, without its line feed.
fn first_line(text: &[u8]) -> &[u8] {
    match text.iter().position(|byte| *byte == b'\n') {
        Some(end) => &text[..end],
        None => text,
    }
}

// The first line of a text of `len` bytes, in quotes.
pub fn print_first_line(rt: &impl Print, text: &[u8], len: usize) -> io::Result<()> {
    let told = &text[..len.min(text.len())];
    rt.write_all(b" \"")?;
    rt.write_all(first_line(told))?;
    rt.write_all(b"\"")
}
