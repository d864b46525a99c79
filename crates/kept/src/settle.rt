// What an act makes of the figures.
ghost use Rattle.std.specs.Prelude.{◌≡◌};
ghost use Rattle.kept.specs.Kept.{settled_at, settled_by, lastly, figures_by};

use judge::{Act, Refusal};
use layout::Block;
use tally::Figures;

// New content of a block. One that the image lacks is never stored into; block 0 and the trailers do not count.
fn settled_at(image: &[u8], f: Figures, b: Block, new: [u8; 16]) -> Option<Figures>
    ensures { result ≡ settled_at image.now f b new }
{
    let has = layout::has_block(image.len(), b);
    let out = (b.0 == 0) | layout::is_trailer(b);
    if has & !out {
        return tally::after(f, memory::content(image, b), new);
    }
    Some(f)
}

// Only what a Write or a Transfer stores moves the figures.
pub(crate) fn settled_by(image: &[u8], f: Figures, act: Act, frame: &[u8]) -> Option<Figures>
    ensures { result ≡ settled_by image.now f act frame.now }
{
    match act {
        Act::Stored(b) => settled_at(image, f, b, memory::sixteen(frame)),
        Act::Moved(b, v, a) => settled_at(image, f, b, value::encode(v, a)),
        _ => Some(f),
    }
}

// The act, or 29 in its place.
pub(crate) fn lastly(settled: Option<Figures>, act: Act) -> Act
    ensures { result ≡ lastly settled act }
{
    match settled {
        Some(_) => act,
        None => judge::refused(Refusal::FiguresOutside),
    }
}

pub(crate) fn figures_by(settled: Option<Figures>, f: Figures) -> Figures
    ensures { result ≡ figures_by settled f }
{
    settled.unwrap_or(f)
}
