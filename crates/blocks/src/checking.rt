// The check of a block: two sums over its words.
ghost use Rattle.std.specs.Prelude.{◌≡◌, ◌<◌};
ghost use Rattle.input.specs.Layout.{word};
ghost use Rattle.blocks.specs.Sizes.{block_size};
ghost use Rattle.blocks.specs.Check.{check_of, is_checked};

use crate::{Block, Check};

// How many words are before the check, of two bytes each; and what each sum is taken modulo.
const WORDS: usize = 254;

const MODULUS: u32 = 65535;

// The word at place `i`: two bytes, little-endian.
pub fn word_at(block: &[u8], i: usize) -> u16
    requires { i < block_size }
    ensures { result ≡ word block.now i }
{
    input::word_of(input::byte_at(block, i), input::byte_at(block, i + 1))
}

// The check that a block should have: the sums over the words before it. Each is added up plainly, and its remainder is
// taken once, at the end: over so many words both stay below 2 to the 32 (`plain_sums_fit`).
#[tactic(auto, using(crate::proofs::PlainSums::next_word), unfolding(crate::proofs::PlainSums::plain_sums))]
pub fn check_of(block: &[u8]) -> Check
    ensures { result ≡ check_of block.now }
{
    let mut first = 0u32;
    let mut second = 0u32;
    // A plain loop: the index is a word's place, in blocks of any length, and every block that is read pays for it.
    for i in 0..WORDS {
        first += u32::from(word_at(block, 2 * i));
        second += first;
    }
    Check {
        first: first % MODULUS,
        second: second % MODULUS,
    }
}

// Whether a block has the check that it should have.
#[tactic(auto, unfolding(crate::specs::Check::is_checked))]
pub fn is_checked(block: &[u8]) -> bool
    ensures { result ≡ is_checked block.now }
{
    let held = Check {
        first: u32::from(word_at(block, Block::CHECK_AT)),
        second: u32::from(word_at(block, Block::CHECK_AT + 2)),
    };
    held == check_of(block)
}
