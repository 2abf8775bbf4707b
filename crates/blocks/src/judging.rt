// The verdict on a block, and its used part.
ghost use Rattle.std.specs.Prelude.{◌≡◌};
ghost use Rattle.blocks.specs.Verdicts.{verdict, verdict_from, part_of_length};

use crate::checking::{is_checked, word_at};
use crate::{Block, BlockKind};
use numbers::Refusal;

// The verdict on a block at an index: the length of the used part, or the first refusal that applies.
#[tactic(auto, unfolding(crate::specs::Verdicts::block_rows, crate::specs::Verdicts::verdict))]
pub fn judge_block(block: &[u8], index: u64) -> Result<usize, Refusal>
    ensures { verdict_from result ≡ verdict block.now index }
{
    if block.len() != Block::SIZE {
        return Err(Refusal::SizeWrong);
    }
    if !is_checked(block) {
        return Err(Refusal::CheckWrong);
    }
    if u64::from(word_at(block, 0)) != index % Block::NUMBERS || Block::LAST_INDEX < index {
        return Err(Refusal::NumberWrong);
    }
    let kind = BlockKind::at(index);
    if input::byte_at(block, Block::KIND_AT) != u8::from(kind) {
        return Err(Refusal::BlockKindWrong);
    }
    let count = input::byte_at(block, Block::COUNT_AT);
    if count < 1 || kind.most_records() < count {
        return Err(Refusal::RecordCountWrong);
    }
    if !kind.is_filled(block) {
        return Err(Refusal::FillerWrong);
    }
    Ok(kind.used_size(block))
}

// The used part of a block's payload, as a slice of the block itself; empty where there is none, as the block is
// refused. The length may be any, so the slice ends at the latest where the block does.
pub fn used_part(block: &[u8], used: Option<usize>) -> &[u8]
    ensures { result.now ≡ part_of_length block.now used }
{
    let Some(n) = used else {
        return &block[..0];
    };
    let payload = &block[Block::PAYLOAD_AT.min(block.len())..];
    &payload[..n.min(payload.len())]
}
