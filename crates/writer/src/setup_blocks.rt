// The block of a set-up.
ghost use Rattle.std.specs.Prelude.{◌≡◌, ◌*◌, ◌<◌};
ghost use Rattle.numbers.specs.Answers.{answer_of};
ghost use Rattle.numbers.specs.Limits.{most_tasks, most_pairs};
ghost use Rattle.writer.specs.SetupBlocks.{Counted, period_byte, pair_byte, setup_byte, setup_payload, setup_written};
ghost use Rattle.writer.specs.SetupBlocks as spec;

use crate::sealing::{PAYLOAD, check_room, head_of, put_block};
use blocks::BlockKind;
use input::Setup;
use numbers::Refusal;
use std::array;

// The four counts. Here and below `Counted`, that they fit a byte, is asked for: it is so of a set-up that is not
// refused, and no fact of the type, as any set-up gets an answer.
fn count_bytes(setup: &Setup) -> [u8; Setup::START_AT]
    requires { Counted setup.now }
    ensures { result ≡ spec.count_bytes setup.now }
{
    [
        setup.processors as u8,
        setup.tasks as u8,
        setup.resources as u8,
        setup.pairs as u8,
    ]
}

// The starting clock: four bytes, little-endian.
fn start_bytes(setup: &Setup) -> [u8; 4]
    ensures { result ≡ spec.start_bytes setup.now }
{
    setup.start.to_le_bytes()
}

// The byte at place `i` of the periods, two bytes each, little-endian.
fn period_byte(setup: &Setup, i: usize) -> u8
    requires { i < 2 * most_tasks }
    ensures { result ≡ period_byte setup.now i }
{
    let bytes = setup.periods[i / 2].to_le_bytes();
    bytes[i % 2]
}

// The byte at place `i` of the pairs, each the outer and then the inner resource.
fn pair_byte(setup: &Setup, i: usize) -> u8
    requires { i < 2 * most_pairs }
    ensures { result ≡ pair_byte setup.now i }
{
    if i % 2 == 0 {
        setup.outer[i / 2]
    } else {
        setup.inner[i / 2]
    }
}

// The byte at place `i` of the payload, 0 after the tables.
#[tactic(auto, unfolding(crate::specs::SetupBlocks::setup_byte))]
fn setup_byte(setup: &Setup, i: usize) -> u8
    requires { Counted setup.now }
    ensures { result ≡ setup_byte setup.now i }
{
    if i < Setup::START_AT {
        let counts = count_bytes(setup);
        return counts[i];
    }
    if i < Setup::PERIODS_AT {
        let start = start_bytes(setup);
        return start[i - Setup::START_AT];
    }
    if i < Setup::KINDS_AT {
        return period_byte(setup, i - Setup::PERIODS_AT);
    }
    if i < Setup::PAIRS_AT {
        return setup.kinds[i - Setup::KINDS_AT];
    }
    if i < Setup::SIZE {
        return pair_byte(setup, i - Setup::PAIRS_AT);
    }
    0
}

// The payload: one line, as that of events is, which a function over both would only rename.
fn setup_payload(setup: &Setup) -> [u8; PAYLOAD]
    requires { Counted setup.now }
    ensures { result ≡ setup_payload setup.now }
{
    array::from_fn(|i| setup_byte(setup, i))
}

// Writes a set-up into a lent block. On a refusal, the first that applies, the block stays as lent.
#[tactic(auto, unfolding(crate::specs::SetupBlocks::setup_written))]
pub fn write_setup(setup: Setup, out: &mut [u8]) -> Result<(), Refusal>
    ensures { (answer_of result, out.new) ≡ setup_written setup out.old }
{
    check_room(out)?;
    setups::judge_setup(setup)?;
    let cleared = setups::clear(setup);
    let head = head_of(0, BlockKind::Setup, 1);
    put_block(out, head, setup_payload(&cleared));
    Ok(())
}
