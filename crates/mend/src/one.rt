// One named block: mended, or refused.
ghost use Rattle.std.specs.Prelude.{◌≡◌};
ghost use Rattle.mend.specs.One.{changed_of, name_refusal, block_outcome, block_after};

use crate::BlockRefusal;
use crate::rule::majority_of;
use layout::Block;

// Which of sixteen bytes changed: bit i for byte i.
fn changed_of(before: [u8; 16], after: [u8; 16]) -> u16
    ensures { result ≡ changed_of before after }
{
    let mut bits: u16 = 0;
    for i in (0..16).rev() {
        bits = u16::from(before[i] != after[i]) + 2 * bits;
    }
    bits
}

// May a block be mended, by its address?
#[tactic(auto, unfolding(crate::specs::One::name_refusal))]
fn judged(bytes: usize, b: Block) -> Result<(), BlockRefusal>
    ensures { result ≡ name_refusal bytes b }
{
    let n = b.0;
    let here = layout::has_block(bytes, b);
    let kept = (n == 0) | layout::is_trailer(b);
    if here {
        if kept {
            return Err(BlockRefusal::NotData);
        }
        return Ok(());
    }
    Err(BlockRefusal::NoBlock)
}

// One block, and which of its bytes changed. Refused, it stays as it is.
#[tactic(auto, unfolding(crate::specs::One::block_outcome, crate::specs::One::block_after, crate::specs::One::outcome_of, crate::specs::One::rewritten))]
pub fn mend_block(image: &mut [u8], b: Block) -> Result<u16, BlockRefusal>
    ensures value { result ≡ block_outcome image.old b }
    ensures image_after { image.new ≡ block_after image.old b }
{
    judged(image.len(), b)?;
    let before = memory::content(image, b);
    let Some((value, address)) = majority_of(before) else {
        return Err(BlockRefusal::NoMajority);
    };
    let after = value::encode(value, address);
    let changed = changed_of(before, after);
    memory::store(image, b, after);
    Ok(changed)
}
