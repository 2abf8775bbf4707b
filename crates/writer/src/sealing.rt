// A block made of its head, its payload and the check.
ghost use Rattle.std.specs.Prelude.{◌≡◌, ◌<◌, length, IsOkUnless};
ghost use Rattle.std.specs.Result.{OkIff};
ghost use Rattle.numbers.specs.declared.answers.Refusal.TheVariants.{RoomWrong};
ghost use Rattle.blocks.specs.Check.{modulus};
ghost use Rattle.blocks.specs.Sizes.{block_size};
ghost use Rattle.blocks.specs.Verdicts.{kind_for};
ghost use Rattle.blocks.specs.Kinds.{is_setup};
ghost use Rattle.writer.specs.Sealed.{head_of, check_bytes, sealed};

use blocks::{Block, BlockKind, Check};
use numbers::Refusal;

// The bytes of the payload.
pub const PAYLOAD: usize = Block::CHECK_AT - Block::PAYLOAD_AT;

// The head of a block: its number, its kind and its record count.
pub fn head_of(index: u64, kind: BlockKind, count: u8) -> [u8; Block::PAYLOAD_AT]
    ensures { result ≡ head_of index (kind_for (is_setup kind)) count }
{
    let [low, high] = ((index % Block::NUMBERS) as u16).to_le_bytes();
    [low, high, u8::from(kind), count]
}

// The check as bytes: the first sum, then the second.
fn check_bytes(check: Check) -> [u8; Block::SIZE - Block::CHECK_AT]
    requires first { check.first < modulus }
    requires second { check.second < modulus }
    ensures { result ≡ check_bytes check }
{
    let [first_low, first_high] = (check.first as u16).to_le_bytes();
    let [second_low, second_high] = (check.second as u16).to_le_bytes();
    [first_low, first_high, second_low, second_high]
}

// A lent block has to have the bytes of a block.
pub fn check_room(out: &[u8]) -> Result<(), Refusal>
    ensures ok { OkIff result (length out.now ≡ block_size) tt }
    ensures err { IsOkUnless result RoomWrong }
{
    if out.len() == Block::SIZE {
        Ok(())
    } else {
        Err(Refusal::RoomWrong)
    }
}

// Writes a whole block, with its check.
pub fn put_block(out: &mut [u8], head: [u8; Block::PAYLOAD_AT], payload: [u8; PAYLOAD])
    requires { length out.old ≡ block_size }
    ensures { out.new ≡ sealed head payload }
{
    out[..Block::PAYLOAD_AT].copy_from_slice(&head);
    out[Block::PAYLOAD_AT..Block::CHECK_AT].copy_from_slice(&payload);
    let check = check_bytes(blocks::check_of(out));
    out[Block::CHECK_AT..].copy_from_slice(&check);
}
