// The items of a scenario, and the one that a line is.
ghost use Rattle.std.specs.Prelude.{◌≡◌};
ghost use Rattle.scenario.specs.Items.{item_named, item_behind, item_in, item_of};
ghost use Rattle.scenario.specs.Items as spec;
ghost use Rattle.scenario.specs.Reads.{item_from, said_as, said_with};
ghost use Rattle.scenario.specs.Named.{place, place_of};

use crate::reading::{Words, beside, first_word, said};
use crate::{Item, Reason};
use input::Event;

// The names of the items.
#[derive(Clone, Copy, Debug, PartialEq, Eq)]
enum Name {
    Processors,
    Start,
    Task,
    Resource,
    Pair,
    Arrive,
    Finish,
    Request,
    Complete,
    Pass,
    Event,
    Block,
}

impl Name {
    // Each name's word.
    const WORDS: [(&'static [u8], Name); 12] = [
        (b"processors", Name::Processors),
        (b"start", Name::Start),
        (b"task", Name::Task),
        (b"resource", Name::Resource),
        (b"pair", Name::Pair),
        (b"arrive", Name::Arrive),
        (b"finish", Name::Finish),
        (b"request", Name::Request),
        (b"complete", Name::Complete),
        (b"pass", Name::Pass),
        (b"event", Name::Event),
        (b"block", Name::Block),
    ];

    // The name that a word is.
    fn of(word: &[u8]) -> Option<Name>
        ensures { place_of result ≡ item_named word.now }
    {
        beside(&Name::WORDS, word)
    }
}

// The item of an event.
fn event(kind: u8, task: u8, resource: u8, tick: u16) -> Item
    ensures { result ≡ spec.event kind task resource tick }
{
    Item::Happens(Event {
        kind,
        task,
        resource,
        tick,
    })
}

// What the item of a name says with the words behind it; or the reason that one of them is not of its sort.
#[tactic(auto, unfolding(crate::specs::Reads::said_with, crate::specs::Reads::said_by, crate::specs::Items::entry_at))]
fn item_with(name: Name, words: &mut Words) -> Result<Item, Reason>
    ensures { said_as result words.new.rest.now ≡ said_with (place name) words.old.rest.now }
{
    match name {
        Name::Processors => Ok(Item::Processors(words.clock()?)),
        Name::Start => Ok(Item::Start(words.clock()?)),
        Name::Task => Ok(Item::Task(words.period()?)),
        Name::Resource => Ok(Item::Resource(words.kind()?)),
        Name::Pair => Ok(Item::Pair(words.byte()?, words.byte()?)),
        Name::Arrive => Ok(event(Event::ARRIVAL, words.byte()?, 0, words.tick()?)),
        Name::Finish => Ok(event(Event::FINISH, words.byte()?, 0, words.tick()?)),
        Name::Request => Ok(event(Event::REQUEST, words.byte()?, words.byte()?, words.tick()?)),
        Name::Complete => Ok(event(
            Event::COMPLETION,
            words.byte()?,
            words.byte()?,
            words.tick()?,
        )),
        Name::Pass => Ok(event(Event::PASSING, 0, 0, words.tick()?)),
        Name::Event => Ok(event(words.byte()?, words.byte()?, words.byte()?, words.tick()?)),
        Name::Block => Ok(Item::Block),
    }
}

// What a line says whose first word is `name`, `rest` being what stands behind it; or what is wrong with it.
#[tactic(auto, using(crate::proofs::Behind::behind_is, crate::proofs::Behind::behind_unknown))]
fn item_behind(name: &[u8], rest: &[u8]) -> Result<Item, Reason>
    ensures { item_from result ≡ item_behind (item_named name.now) rest.now }
{
    let name = Name::of(name).ok_or(Reason::Unknown)?;
    let mut words = Words { rest };
    let item = item_with(name, &mut words)?;
    words.end()?;
    Ok(item)
}

// The item of what is said on a line.
fn item_in(l: &[u8]) -> Result<Item, Reason>
    ensures { item_from result ≡ item_in l.now }
{
    let (name, rest) = first_word(l);
    if name.is_empty() {
        return Ok(Item::Blank);
    }
    item_behind(name, rest)
}

// Reads a line, whatever its bytes.
pub fn read_line(line: &[u8]) -> Item
    ensures { result ≡ item_of line.now }
{
    match item_in(said(line)) {
        Ok(item) => item,
        Err(reason) => Item::Wrong(u8::from(reason)),
    }
}
