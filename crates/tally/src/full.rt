// The full count of an image, and its opening.
ghost use Rattle.std.specs.Prelude.{◌≡◌};
ghost use Rattle.tally.specs.Change.{figures_of, count_share, sum_share};
ghost use Rattle.tally.specs.Full.{share_at, full_figures, opened_of};

use crate::Refusal;
use crate::change::{Figures, added, share_of};
use layout::Block;

// The share of a block: nothing for block 0 and the trailers. A block that the image lacks reads as zeros, which are no value block.
fn share_at(image: &[u8], b: Block) -> Figures
    ensures { result ≡ figures_of (share_at count_share image.now b) (share_at sum_share image.now b) }
{
    let n = b.0;
    let out = (n == 0) | layout::is_trailer(b);
    if out {
        return Figures { count: 0, sum: 0 };
    }
    share_of(memory::content(image, b))
}

// The full count, block by block.
fn count_all(image: &[u8]) -> Figures
    ensures { result ≡ full_figures image.now }
{
    let blocks = layout::blocks_of(image.len());
    let mut f = Figures { count: 0, sum: 0 };
    for i in 0..blocks {
        f = added(f, share_at(image, Block(i as u8)));
    }
    f
}

// The figures to keep of a card.
#[tactic(auto, unfolding(crate::specs::Full::opened_of))]
pub fn open(image: &[u8]) -> Result<Figures, Refusal>
    ensures { result ≡ opened_of image.now }
{
    if layout::sectors_of(image.len()) == 0 {
        return Err(Refusal::NoCard);
    }
    Ok(count_all(image))
}
