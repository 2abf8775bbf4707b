// Texts and numbers written into a buffer, one behind another.
ghost use Rattle.std.specs.Prelude.{◌≡◌, ◌+◌, ◌*◌, ◌≤◌, ◌<◌, ◌++◌, length};
ghost use Rattle.search.specs.Texts.{digit, digits, decimal};
ghost use Rattle.numbers.specs.Limits.{most_processors};
ghost use Rattle.protocol.specs.Records.{total_count};
ghost use Rattle.lines.specs.Buffers.{Put, places_text, place_width, total_width};
ghost use Rattle.lines.specs.Pens.{Fits, Wrote};
ghost use Rattle.lines.specs.Texts.{task_text, place_text, totals_text};

use numbers::Limit;
use protocol::Task;

// Numbers are written here and not by `Display`: what a line holds is a definition of specs/ (`decimal`), and each
// event's line is made so.
//
// Enough digits for every number of 64 bits.
const MOST_DIGITS: u8 = 20;

// A lent buffer, and the place in it where the next text goes.
#[derive(Drop)]
pub struct Pen<'a> {
    out: &'a mut [u8],
    pub at: usize,
}

impl<'a> Pen<'a> {
    // At the start of a buffer.
    pub fn new(out: &'a mut [u8]) -> Pen<'a>
        ensures same_buffer { result.out.ghost_name ≡ out.entry.ghost_name }
        ensures unwritten { result.out.now ≡ out.old }
        ensures at_start { result.at ≡ 0 }
    {
        Pen { out, at: 0 }
    }

    // Writes a text.
    pub fn put_text(&mut self, text: &[u8])
        requires { Fits self.old text.now }
        ensures same_buffer { self.new.out.ghost_name ≡ self.old.out.ghost_name }
        ensures wrote { Wrote self.old text.now self.new }
    {
        let end = self.at + text.len();
        self.out[self.at..end].copy_from_slice(text);
        self.at = end;
    }

    // Writes the last digit of `n`.
    fn put_digit(&mut self, n: u64)
        requires { self.old.at < length self.old.out.now }
        ensures same_buffer { self.new.out.ghost_name ≡ self.old.out.ghost_name }
        ensures wrote { Wrote self.old (digit n) self.new }
    {
        self.out[self.at] = b'0' + (n % 10) as u8;
        self.at += 1;
    }

    // Writes the decimal digits of `n`, the last `most` of them where there are more.
    fn put_digits(&mut self, n: u64, most: u8)
        requires { Fits self.old (digits most n) }
        ensures same_buffer { self.new.out.ghost_name ≡ self.old.out.ghost_name }
        ensures wrote { Wrote self.old (digits most n) self.new }
    {
        if most == 0 {
            return;
        }
        if n < 10 {
            return self.put_digit(n);
        }
        self.put_digits(n / 10, most - 1);
        self.put_digit(n)
    }

    // Writes a number in decimal. Most numbers of a line, such as a task or an answer, are below 100, so those are
    // written at once, without recursion.
    pub fn put_number(&mut self, n: u64)
        requires { Fits self.old (decimal n) }
        ensures same_buffer { self.new.out.ghost_name ≡ self.old.out.ghost_name }
        ensures wrote { Wrote self.old (decimal n) self.new }
    {
        if n < 10 {
            return self.put_digit(n);
        }
        if n < 100 {
            self.put_digit(n / 10);
            return self.put_digit(n);
        }
        self.put_digits(n, MOST_DIGITS)
    }

    // Writes a word, then a number.
    #[tactic(auto, using(crate::proofs::Pens::wrote_then))]
    pub fn put_numbered(&mut self, word: &[u8], n: u64)
        requires { Fits self.old (word.now ++ decimal n) }
        ensures same_buffer { self.new.out.ghost_name ≡ self.old.out.ghost_name }
        ensures wrote { Wrote self.old (word.now ++ decimal n) self.new }
    {
        self.put_text(word);
        self.put_number(n)
    }

    // Writes a task's number, or `-` for none.
    fn put_task(&mut self, t: u8)
        requires { Fits self.old (task_text t) }
        ensures same_buffer { self.new.out.ghost_name ≡ self.old.out.ghost_name }
        ensures wrote { Wrote self.old (task_text t) self.new }
    {
        if t == Limit::NOBODY {
            self.put_text(b"-")
        } else {
            self.put_number(u64::from(t))
        }
    }

    // Writes linked/running task of one processor.
    fn put_place(&mut self, linked: u8, running: u8)
        requires { Fits self.old (place_text linked running) }
        ensures same_buffer { self.new.out.ghost_name ≡ self.old.out.ghost_name }
        ensures wrote { Wrote self.old (place_text linked running) self.new }
    {
        self.put_text(b" ");
        self.put_task(linked);
        self.put_text(b"/");
        self.put_task(running)
    }

    // Writes linked/running task of the first `count` processors.
    pub fn put_places(&mut self, snapshot: &[u8], count: usize)
        requires { (count ≤ most_processors) × (self.old.at + place_width * count ≤ length self.old.out.now) }
        ensures same_buffer { self.new.out.ghost_name ≡ self.old.out.ghost_name }
        ensures wrote { Wrote self.old (places_text snapshot.now count) self.new }
        ensures within { self.new.at ≤ self.old.at + place_width * count }
    {
        // By a processor's number, which gives two places of the snapshot.
        for k in 0..count {
            self.put_place(
                input::byte_at(snapshot, 2 * k + 1),
                input::byte_at(snapshot, 2 * k + 2),
            );
        }
    }

    // Writes the totals of a task.
    pub fn put_totals(&mut self, totals: [u32; Task::TOTALS])
        requires { self.old.at + total_width * total_count ≤ length self.old.out.now }
        ensures same_buffer { self.new.out.ghost_name ≡ self.old.out.ghost_name }
        ensures wrote { Wrote self.old (totals_text totals total_count) self.new }
        ensures within { self.new.at ≤ self.old.at + total_width * total_count }
    {
        for total in totals {
            self.put_numbered(b" ", u64::from(total));
        }
    }
}
