//! The page that the test card's program prints.
ghost use Rattle.std.specs.Prelude.{◌≡◌, ◌↔◌, ◌++◌, IsTrue, IfOk};
ghost use Rattle.std.specs.String.{string_bytes};
ghost use Rattle.card.specs.Cards.{card_cells};
ghost use Rattle.card.specs.Pages.{AllSame, card_page, card_text, verdict};

use crate::{Card, draw};
use full_links::eighteen::EighteenBit;
use full_links::nine::NineBit;
use link::Link;
use picture::rows;
use short_links::eight::EightBit;
use short_links::serial::{Serial, SerialId};
use short_links::sixteen::SixteenBit;
use std::alloc::{AllocError, Global};

// Draws the card over a link, and adds its name, the beats sent and the four rows to a text.
fn add_card<L: Link + Drop>(
    text: &mut String,
    heap: Global,
    name: &str,
    link: L,
) -> Result<Card, AllocError>
    ensures { IfOk result
        (λ card. (string_bytes text.new ≡
        string_bytes text.old ++ card_text name.now (L.state link).format)
        × (card.cells ≡ card_cells (L.state link).format)) }
{
    let card = draw(link);
    writeln!(text, "{name} link, {} beats", card.beats)?;
    text.push_str(rows(heap, &card.cells, 8)?.as_str())?;
    Ok(card)
}

// Whether the others have the picture of the first.
fn agree(first: &Card, others: &[Card]) -> bool
    ensures { IsTrue result ↔ AllSame first.now others.now }
{
    others.iter().all(|other| first.cells == other.cells)
}

// The last line: whether the pictures agree.
fn closing(same: bool) -> &'static str
    ensures { result.now ≡ verdict same }
{
    if same {
        "the five pictures agree\n"
    } else {
        "the pictures do not agree\n"
    }
}

/// The card over each of the five links, and whether the five pictures agree.
pub fn page(heap: Global) -> Result<String, AllocError>
    ensures { IfOk result (λ text. string_bytes text ≡ card_page) }
{
    let mut text = String::new(heap);
    let cards = [
        add_card(&mut text, heap, "18-bit", EighteenBit)?,
        add_card(&mut text, heap, "16-bit", SixteenBit)?,
        add_card(&mut text, heap, "9-bit", NineBit::new())?,
        add_card(&mut text, heap, "8-bit", EightBit::new())?,
        add_card(&mut text, heap, "serial", Serial::new(SerialId::Zero))?,
    ];
    text.push_str(closing(agree(&cards[0], &cards[1..])))?;
    Ok(text)
}
