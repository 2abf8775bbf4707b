// What is said on standard error about a scenario that is not made. Where not even that can be written, nobody is told.
use numbers::Refusal;
use scenario::{Reason, Trouble};
use std::io::{Cursor, Write};

// What is wrong with a line, by the number of the reason.
fn say_reason(to: &mut impl Write, number: u8) {
    let _ = match Reason::try_from(number) {
        Ok(reason) => write!(to, "{reason}"),
        Err(unknown) => write!(to, "{unknown}"),
    };
}

// Room for what is said of a refused set-up or block: the longest has 88 bytes.
const ROOM: usize = 128;

// A refused set-up, or a block past the last index.
fn say_refused(to: &mut impl Write, refusal: Refusal) {
    let what = match refusal {
        Refusal::CountOutside
        | Refusal::PeriodZero
        | Refusal::KindUnknown
        | Refusal::PairStray
        | Refusal::LongInShort => "set-up",
        _ => "block",
    };
    let number = u8::from(refusal);
    // It goes out in one write, so that nothing of another program's comes between its parts.
    let mut text = [0u8; ROOM];
    let mut cursor = Cursor::new(&mut text[..]);
    let _ = writeln!(cursor, "{what} refused {number}: {refusal}");
    let len = cursor.position() as usize;
    say(to, &text[..len.min(ROOM)]);
}

// A faulty line, with the reason; or the block that it completes is refused.
pub fn say_line(to: &mut impl Write, number: u64, line: &[u8], trouble: Trouble) {
    match trouble {
        Trouble::Faulty(reason) => {
            let _ = write!(to, "line {number}: ");
            say_reason(to, reason);
            say(to, b": ");
            say(to, line.strip_suffix(b"\r").unwrap_or(line));
            say(to, b"\n");
        }
        Trouble::Refused(refusal) => say_refused(to, refusal),
    }
}

// A fault that is found at the end of the text, where no line is to blame; or the last block is refused.
pub fn say_end(to: &mut impl Write, trouble: Trouble) {
    match trouble {
        Trouble::Faulty(reason) => {
            say(to, b"at the end: ");
            say_reason(to, reason);
            say(to, b"\n");
        }
        Trouble::Refused(refusal) => say_refused(to, refusal),
    }
}

// A line that is too long.
pub fn say_long(to: &mut impl Write, number: u64) {
    let _ = writeln!(to, "line {number}: a line has at most 65535 bytes");
}

// Standard input failed.
pub const UNREAD: &'static [u8] = b"the scenario could not be read\n";

// Standard output failed.
pub const UNWRITTEN: &'static [u8] = b"the file could not be written\n";

// Says a text.
pub fn say(to: &mut impl Write, text: &[u8]) {
    let _ = to.write_all(text);
}
