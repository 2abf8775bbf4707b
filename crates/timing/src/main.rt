// What single calls take: standard input has a block file and orders for calls, and standard output has the result of
// each order. bench/run times it with many calls and with none.
//
// The input: one byte, how many blocks of events are played first; the block of the set-up; those blocks; the block
// that the calls are about; then orders, three bytes each, up to the input's end: what is called, and how many
// hundred times, little-endian.
#![tactic(auto)]

ghost use Rattle.std.specs.Prelude.{◌≡◌, length};
ghost use Rattle.blocks.specs.Sizes.{block_size};

use blocks::Block;
use protocol::State;
use std::io;
use std::io::Read;

// What is called: a step, a sound test, a block's check, or the verdict on it.
#[derive(Clone, Copy)]
enum Call {
    Step,
    Test,
    Check,
    Verdict,
}

// What an order's byte asks for, if anything.
fn call_of(order: u8) -> Option<Call> {
    match order {
        b's' => Some(Call::Step),
        b't' => Some(Call::Test),
        b'c' => Some(Call::Check),
        b'v' => Some(Call::Verdict),
        _ => None,
    }
}

// How many calls an order counts as one.
const CALLS: u64 = 100;

// More orders than an input has.
const MOST_ORDERS: u64 = 1000;

// The next block of the input. What is missing of it reads 0, also where a read failed, and such a block is refused.
fn read_block(input: &mut impl Read) -> [u8; Block::SIZE]
    ensures { length result ≡ block_size }
{
    let mut block = [0u8; Block::SIZE];
    let _ = streams::read_full(input, &mut block);
    block
}

// The state that the set-up of a block begins with.
fn begin_from(block: &[u8]) -> State {
    let part = blocks::used_part(block, blocks::judge_block(block, 0).ok());
    states::begin(input::setup_from(part)).unwrap_or(states::empty())
}

// The state after the events of a block.
fn play_block(state: State, block: &[u8], index: u64) -> State {
    let mut out = [0u8; Block::MOST_EVENTS as usize * State::SNAPSHOT];
    let part = blocks::used_part(block, blocks::judge_block(block, index).ok());
    locking::play(state, part, &mut out).state
}

// Plays the next blocks of the input, which follow the set-up's.
fn play_blocks(input: &mut impl Read, begun: State, count: u64) -> State {
    let mut state = begun;
    for i in 0..count {
        let block = read_block(input);
        state = play_block(state, &block, i + 1);
    }
    state
}

// One more, if a call passed.
fn count_if(passed: bool, count: u64) -> u64 {
    if passed { count.wrapping_add(1) } else { count }
}

// Steps through the events of a part, each from the state before it, and after the last one again from the begun
// state; returns how many were accepted. `cycle` would make no call where a part has no events.
fn make_steps(begun: State, part: &[u8], calls: u64) -> u64 {
    let events = input::event_count(part);
    let mut state = begun;
    let mut at = 0;
    let mut accepted = 0;
    for _ in 0..calls {
        if at == events {
            state = begun;
            at = 0;
        }
        if let Ok(after) = locking::step(state, input::event_at(part, at)) {
            state = after;
            accepted = count_if(true, accepted);
        }
        at = at.wrapping_add(1);
    }
    accepted
}

// Tests a state whose clock moves on by a tick before each test, so that no two tests are of the same state; returns
// how many passed.
fn make_tests(begun: State, calls: u64) -> u64 {
    let mut state = begun;
    let mut passed = 0;
    for _ in 0..calls {
        state.clock = state.clock.wrapping_add(1);
        passed = count_if(soundness::is_sound(state), passed);
    }
    passed
}

// The byte as given, and another one in every second call.
fn alternate(given: u8, call: u64) -> u8 {
    if call % 2 == 0 { given } else { !given }
}

// Makes calls with a block whose first byte is another one in every second call; returns how many passed.
fn call_with<F: Fn(&[u8]) -> bool>(given: [u8; Block::SIZE], calls: u64, passes: F) -> u64
    requires { F.IsAlwaysCallable passes }
{
    let mut block = given;
    let mut passed = 0;
    for call in 0..calls {
        block[0] = alternate(given[0], call);
        passed = count_if(passes(&block), passed);
    }
    passed
}

// Makes the calls of an order; returns how many of them passed. Where the order asks for nothing, nothing is called.
fn follow(
    what: Option<Call>,
    state: State,
    block: [u8; Block::SIZE],
    index: u64,
    calls: u64,
) -> u64 {
    match what {
        Some(Call::Step) => {
            let part = blocks::used_part(&block, blocks::judge_block(&block, index).ok());
            make_steps(state, part, calls)
        }
        Some(Call::Test) => make_tests(state, calls),
        Some(Call::Check) => {
            let own = blocks::check_of(&block);
            call_with(block, calls, |given| blocks::check_of(given) == own)
        }
        Some(Call::Verdict) => call_with(
            block,
            calls,
            |given| blocks::judge_block(given, index).is_ok(),
        ),
        None => 0,
    }
}

// The next order, where the input has a whole one.
fn read_order(input: &mut impl Read) -> Option<[u8; 3]> {
    let mut order = [0u8; 3];
    match streams::read_full(input, &mut order) {
        Ok(3) => Some(order),
        _ => None,
    }
}

// Follows the orders up to the input's end, and prints of each how many of its calls passed.
fn follow_all(
    rt: &impl Print,
    input: &mut impl Read,
    state: State,
    block: [u8; Block::SIZE],
    index: u64,
) -> io::Result<()> {
    for _ in 0..MOST_ORDERS {
        let Some(order) = read_order(input) else {
            break;
        };
        let calls = CALLS * u64::from(input::word_of(order[1], order[2]));
        println!(rt; "{}", follow(call_of(order[0]), state, block, index, calls))?;
    }
    Ok(())
}

// Follows the orders of a whole input.
fn run(rt: &impl Print, input: &mut impl Read) -> io::Result<()> {
    let mut head = [0u8; 1];
    let _ = streams::read_full(input, &mut head);
    let played = u64::from(head[0]);
    let first = read_block(input);
    let state = play_blocks(input, begin_from(&first), played);
    let last = read_block(input);
    follow_all(rt, input, state, last, played + 1)
}

fn main(rt: HostRuntime) -> io::Result<()> {
    run(&rt, &mut rt.reader())
}
