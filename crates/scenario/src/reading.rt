// What a line of a scenario holds: its words, and what each of them is.
ghost use Rattle.std.specs.Prelude.{◌≡◌, ℕ, ◌-◌, Bool, true, false, ◌≢◌, eqb, MatchOption, MatchResult, Some, None, length, take, drop};
ghost use Rattle.std.specs.List.{position_or_len, find};
ghost use Rattle.std.specs.Fn.{FnReturnsAt};
ghost use Rattle.std.specs.Option.{option_map};
ghost use Rattle.std.specs.Cmp.Lexicographic.{pointwise};
ghost use Rattle.scenario.specs.Words.{said, first_word, behind, is_blank, is_digit};
ghost use Rattle.scenario.specs.Items.{a_byte, a_period, a_clock, a_tick, a_kind, number_in, tick_in, kind_in};
ghost use Rattle.scenario.specs.Reads.{argument_from, IsRead, IsEnded};

use crate::{Reason, Sort};
use input::Setup;

// The sign of a remark.
const HASH: u8 = b'#';

// A slice up to the first byte that passes, and from that on.
fn split_at_first<F: Fn(u8) -> bool>(l: &[u8], passes: F) -> (&[u8], &[u8])
    requires { F.IsAlwaysCallable passes }
    ensures { (p : ℕ → Bool) → ((c : ℕ) (b : Bool) → F.post passes c b → b ≡ p c) →
        (result.0.now ≡ take (position_or_len p l.now) l.now) ×
        (result.1.now ≡ drop (position_or_len p l.now) l.now) }
{
    let at = l.iter().position(|c| passes(*c)).unwrap_or(l.len());
    l.split_at(at)
}

// What of a line is read: all before its remark, without a carriage return at its end.
pub fn said(line: &[u8]) -> &[u8]
    ensures { result.now ≡ said line.now }
{
    let unended = line.strip_suffix(b"\r").unwrap_or(line);
    split_at_first(unended, |c| c == HASH).0
}

// A space or a tab.
fn is_blank(c: u8) -> bool
    ensures { result ≡ is_blank c }
{
    c == b' ' || c == b'\t'
}

// The first word, and what stands behind it.
pub fn first_word(l: &[u8]) -> (&[u8], &[u8])
    ensures word { result.0.now ≡ first_word l.now }
    ensures rest { result.1.now ≡ behind l.now }
{
    let (_, trimmed) = split_at_first(l, |c| !is_blank(c));
    split_at_first(trimmed, is_blank)
}

// The value of a decimal digit.
fn digit_in(c: u8) -> Option<u32>
    ensures { MatchOption result (is_digit c ≡ false) (λ d. (is_digit c ≡ true) × (d ≡ c - 48)) }
{
    if c.is_ascii_digit() {
        Some(u32::from(c - b'0'))
    } else {
        None
    }
}

// A word as a number of four bytes. It has digits only, so no sign.
fn number_in(word: &[u8]) -> Option<u32>
    ensures { argument_from result ≡ number_in 4294967295 word.now }
{
    if word.is_empty() {
        return None;
    }
    let mut value = 0u32;
    for c in word {
        value = value.checked_mul(10)?.checked_add(digit_in(*c)?)?;
    }
    Some(value)
}

// A word as a number of one byte. One function for this and the next, over any `T: TryFrom<u32>`, would need a contract
// with a case for each answer of a conversion, longer than both.
fn byte_in(word: &[u8]) -> Option<u8>
    ensures { argument_from result ≡ number_in 255 word.now }
{
    u8::try_from(number_in(word)?).ok()
}

// A word as a number of two bytes.
fn period_in(word: &[u8]) -> Option<u16>
    ensures { argument_from result ≡ number_in 65535 word.now }
{
    u16::try_from(number_in(word)?).ok()
}

// A word as a tick: `@` and a number of two bytes.
fn tick_in(word: &[u8]) -> Option<u16>
    ensures { argument_from result ≡ tick_in word.now }
{
    period_in(word.strip_prefix(b"@")?)
}

// What stands beside a word in a table; none where no row has the word.
pub fn beside<T: Copy>(rows: &[(&[u8], T)], word: &[u8]) -> Option<T>
    ensures { result ≡ option_map (λ row. row.1) (find (λ row. pointwise eqb word.now row.0.now) rows.now) }
{
    rows.iter().find(|row| word == row.0).map(|row| row.1)
}

// The kinds of resource, by their words.
const KINDS: [(&'static [u8], u8); 2] = [(b"short", Setup::SHORT), (b"long", Setup::LONG)];

// A word as a kind of resource.
fn kind_in(word: &[u8]) -> Option<u8>
    ensures { argument_from result ≡ kind_in word.now }
{
    beside(&KINDS, word)
}

// The words of a line that are left to read.
#[derive(Drop)]
pub struct Words<'a> {
    pub rest: &'a [u8],
}

impl<'a> Words<'a> {
    // The first word by `read`; or the reason that it is not of its sort. It is taken off.
    fn next<T, F: Fn(&[u8]) -> Option<T>>(&mut self, sort: Sort, read: F) -> Result<T, Reason>
        requires { F.IsAlwaysCallable read }
        ensures word { MatchResult result
            (λ value. FnReturnsAt F.Fn read (first_word self.old.rest.now) (Some value))
            (λ reason. FnReturnsAt F.Fn read (first_word self.old.rest.now) None × (reason ≡ Reason.Misfit sort)) }
        ensures rest { self.new.rest.now ≡ behind self.old.rest.now }
    {
        let (word, rest) = first_word(self.rest);
        self.rest = rest;
        read(word).ok_or(Reason::Misfit(sort))
    }

    // A number of one byte.
    pub fn byte(&mut self) -> Result<u8, Reason>
        ensures word { IsRead a_byte self.old.rest.now result }
        ensures rest { self.new.rest.now ≡ behind self.old.rest.now }
    {
        self.next(Sort::Byte, byte_in)
    }

    // A number of two bytes.
    pub fn period(&mut self) -> Result<u16, Reason>
        ensures word { IsRead a_period self.old.rest.now result }
        ensures rest { self.new.rest.now ≡ behind self.old.rest.now }
    {
        self.next(Sort::Period, period_in)
    }

    // A number of four bytes.
    pub fn clock(&mut self) -> Result<u32, Reason>
        ensures word { IsRead a_clock self.old.rest.now result }
        ensures rest { self.new.rest.now ≡ behind self.old.rest.now }
    {
        self.next(Sort::Clock, number_in)
    }

    // `@` and a number of two bytes.
    pub fn tick(&mut self) -> Result<u16, Reason>
        ensures word { IsRead a_tick self.old.rest.now result }
        ensures rest { self.new.rest.now ≡ behind self.old.rest.now }
    {
        self.next(Sort::Tick, tick_in)
    }

    // `short` or `long`.
    pub fn kind(&mut self) -> Result<u8, Reason>
        ensures word { IsRead a_kind self.old.rest.now result }
        ensures rest { self.new.rest.now ≡ behind self.old.rest.now }
    {
        self.next(Sort::Kind, kind_in)
    }

    // No word more.
    #[tactic(auto, unfolding(crate::specs::Items::argument_of))]
    pub fn end(&self) -> Result<(), Reason>
        ensures { IsEnded self.now.rest.now result }
    {
        if first_word(self.rest).0.is_empty() {
            Ok(())
        } else {
            Err(Reason::Misfit(Sort::NoMore))
        }
    }
}
