// The boundary of an opening: the figures of an image, counted in full.
ghost use Rattle.std.specs.Prelude.{◌≡◌};
ghost use Rattle.tally.specs.Bytes.{figures_bytes};
ghost use Rattle.edition.specs.Bytes.{found_in};
ghost use Rattle.desk.specs.Opening.{opened_for, opened_with, opening_number, opening_figures};

use edition::CardRecord;
use tally::{Figures, Refusal};

// The opening of a card with this record: an EV1 has one size.
#[tactic(auto, unfolding(crate::specs::Opening::opened_for))]
fn opened_for(image: &[u8], k: CardRecord) -> Result<Figures, Refusal>
    ensures { result ≡ opened_for image.now k }
{
    let edition = k.edition;
    if edition::is_wrong_size(edition, image.len()) {
        return Err(Refusal::NoCard);
    }
    tally::open(image)
}

// The opening by what four bytes hold.
#[tactic(auto, unfolding(crate::specs::Opening::opened_with))]
fn opened(image: &[u8], found: Option<CardRecord>) -> Result<Figures, Refusal>
    ensures { result ≡ opened_with image.now found }
{
    match found {
        Some(k) => opened_for(image, k),
        None => Err(Refusal::NoCard),
    }
}

// The figures of an image, to be kept beside it from now on.
pub fn tirlwheel_open(image: &[u8], card: &[u8; 4], figures: &mut [u8; 16]) -> u32
    ensures value { result ≡ opening_number (opened_with image.now (found_in card.now)) }
    ensures figures_after { figures.new ≡ figures_bytes (opening_figures (opened_with image.now (found_in card.now))) }
{
    let found = edition::decode(*card);
    let told = opened(image, found);
    *figures = tally::encode(told.unwrap_or(Figures { count: 0, sum: 0 }));
    told.map_or_else(|refusal| u32::from(refusal.number()), |_| 0)
}
