// A page of lines: what is printed of a block, and at the input's end.
ghost use Rattle.std.specs.Prelude.{◌≡◌, ◌+◌, ◌<◌, ◌≤◌, length, Ok};
ghost use Rattle.input.specs.Layout.{setup_in, event_count};
ghost use Rattle.protocol.specs.Events.{begin as begin_rule};
ghost use Rattle.blocks.specs.Sizes.{most_events};
ghost use Rattle.blocks.specs.Verdicts.{verdict};
ghost use Rattle.pages.specs.Pages.{beginning, wide, ended as ended_here, setup_page, event_page, block_page, last_page, page_limit, paged, page_into, page_from};

use crate::writing::{put_events, put_tasks};
use crate::{Engine, Page, Session};
use blocks::Block;
use numbers::Refusal;
use protocol::State;

// The session before the first block.
#[tactic(auto, unfolding(crate::specs::Pages::beginning))]
pub fn begin() -> Session
    ensures { result ≡ beginning }
{
    Session {
        index: 0,
        events: 0,
        over: false,
        state: states::empty(),
        refused: false,
    }
}

// The page that ends the output, with a refusal or without.
fn ended(x: Session, refused: bool, len: usize) -> Page
    ensures { result ≡ record { session = ended_here x refused; len = len } }
{
    let session = Session {
        over: true,
        refused,
        ..x
    };
    Page { session, len }
}

// The first block's page: the first line, or the set-up's refusal.
fn setup_page(x: Session, part: &[u8], out: &mut [u8; Page::LIMIT]) -> Page
    ensures { ((page_from x (Ok result), out.new)
        ≡ paged (setup_page x (begin_rule (setup_in part.now))) out.old)
        × (result.len ≤ length out.new) }
{
    match states::begin(input::setup_from(part)) {
        Ok(state) => {
            let setup = state.setup;
            let line = lines::counts_line(setup.processors, setup.tasks, setup.start, out);
            let len = line.unwrap_or(0);
            let session = Session {
                index: 1,
                events: 0,
                over: false,
                state,
                refused: false,
            };
            Page { session, len }
        }
        Err(refusal) => {
            let len = lines::setup_line(u8::from(refusal), out).unwrap_or(0);
            ended(x, true, len)
        }
    }
}

// Every other block's page: a line for each event.
fn event_page(x: Session, part: &[u8], out: &mut [u8; Page::LIMIT], engine: Engine) -> Page
    requires { (event_count part.now ≤ most_events) × (x.index + 1 < wide) }
    ensures { ((page_from x (Ok result), out.new) ≡ paged (event_page x part.now) out.old)
        × (result.len ≤ length out.new) }
{
    let mut written = [0u8; Block::MOST_EVENTS as usize * State::SNAPSHOT];
    let played = engine.play(x.state, part, &mut written);
    let len = put_events(
        out,
        &written,
        played.count,
        x.state.setup.processors,
        x.events,
    );
    let session = Session {
        index: x.index + 1,
        events: x.events.wrapping_add(played.count as u64),
        over: false,
        state: played.state,
        refused: false,
    };
    Page { session, len }
}

// A block's page; a refused block ends the output.
fn block_page(x: Session, block: &[u8], out: &mut [u8; Page::LIMIT], engine: Engine) -> Page
    ensures { ((page_from x (Ok result), out.new)
        ≡ paged (block_page x block.now (verdict block.now x.index)) out.old)
        × (result.len ≤ length out.new) }
{
    let verdict = blocks::judge_block(block, x.index);
    let Ok(used) = verdict else {
        let len = lines::block_line(x.index, numbers::answer_of(&verdict), out).unwrap_or(0);
        return ended(x, true, len);
    };
    let part = blocks::used_part(block, Some(used));
    if x.index == 0 {
        setup_page(x, part, out)
    } else {
        event_page(x, part, out, engine)
    }
}

// The input's end: the totals of each task; without any block, block 0 is refused.
fn last_page(x: Session, out: &mut [u8; Page::LIMIT]) -> Page
    ensures { ((page_from x (Ok result), out.new) ≡ paged (last_page x) out.old)
        × (result.len ≤ length out.new) }
{
    if x.index == 0 {
        let len = lines::block_line(0, u8::from(Refusal::SizeWrong), out).unwrap_or(0);
        return ended(x, true, len);
    }
    let len = put_tasks(out, x.state);
    ended(x, false, len)
}

// The page of what was read: a block, or nothing at the input's end; once the output is over, it is empty. A buffer
// that is too short is refused. The engine makes no difference to the page.
pub fn next_page(x: Session, read: &[u8], out: &mut [u8], engine: Engine) -> Result<Page, Refusal>
    ensures { ((page_from x result, out.new) ≡ page_into x read.now out.old)
        × ((page_from x result).len ≤ length out.new) }
{
    let Some(out) = out.first_chunk_mut::<{ Page::LIMIT }>() else {
        return Err(Refusal::BufferShort);
    };
    if x.over {
        return Ok(Page { session: x, len: 0 });
    }
    if read.is_empty() {
        Ok(last_page(x, out))
    } else {
        Ok(block_page(x, read, out, engine))
    }
}
