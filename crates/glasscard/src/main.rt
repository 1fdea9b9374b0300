//! Gives the plain glass and the controller behind each of the five links one chain of calls and then the test card, and
//! prints the pictures, whether they agree as carried, and whether the six glasses answer alike.
#![tactic(auto)]

use calls::run;
use cells::Lent;
use driver::Driver;
use full_links::eighteen::EighteenBit;
use full_links::nine::NineBit;
use glass::Glass;
use link::Link;
use picture::rows;
use pixel::rect::{Place, Size};
use plain::PlainGlass;
use short_links::eight::EightBit;
use short_links::serial::{Serial, SerialId};
use short_links::sixteen::SixteenBit;
use std::alloc::{AllocError, Global};
use std::fmt::Write as _;
use std::{array, fmt, io};

mod card;

const SIZE: Size = Size {
    width: 8,
    height: 4,
};

// The cells of a glass of 8 × 4, row by row; 0 for one that is not there.
fn cells_of<G: Glass>(glass: &G) -> [u32; 32]
    requires { G.reached glass.now }
{
    array::from_fn(|i| {
        let place = Place {
            x: (i % 8) as u16,
            y: (i / 8) as u16,
        };
        glass.look(place).unwrap_or(0)
    })
}

// Whether each cell of a glass shows what the glass carries another's cell as.
fn agrees<G: Glass>(glass: &G, others: &[u32; 32]) -> bool
    requires { G.reached glass.now }
{
    cells_of(glass)
        .iter()
        .zip(others)
        .all(|(own, other)| glass.shade(*other) == Ok(*own))
}

// What one glass makes of the chain and of the card.
#[derive(Clone, Copy, Debug, PartialEq, Eq, Hash)]
struct Seen {
    // whether every call was answered as it should be
    told: bool,
    chain: [u32; 32],
    card: [u32; 32],
    // the colour that white is carried as
    white: u32,
}

// Gives a new glass of 8 × 4 the chain, and then the card, which covers every cell.
fn visit<G: Glass>(glass: &mut G) -> Seen
    requires { G.reached glass.old }
    ensures { G.reached glass.new }
{
    let answered = run(glass, card::CHAIN);
    let chain = cells_of(glass);
    let drawn = run(glass, card::CARD);
    Seen {
        told: answered && drawn,
        chain,
        card: cells_of(glass),
        white: glass.shade(card::WHITE).unwrap_or(0),
    }
}

// Adds the four rows of a picture to a text.
fn add(text: &mut String, cells: &[u32; 32]) -> Result<(), AllocError> {
    let letters = rows(*text.allocator(), cells, 8)?;
    text.push_str(letters.as_str())
}

// Adds a glass's name, what white is there, and its card.
fn add_card(text: &mut String, name: &str, seen: &Seen) -> Result<(), AllocError> {
    let white = seen.white;
    writeln!(text, "{name}, white is {white:05X}h")?;
    add(text, &seen.card)
}

fn on_plain(text: &mut String) -> Result<Seen, AllocError> {
    let mut memory = [0; 32];
    let mut glass = PlainGlass::fit(Lent::new(&mut memory), SIZE);
    let seen = visit(&mut glass);
    text.push_str("plain glass, after the chain\n")?;
    add(text, &seen.chain)?;
    add_card(text, "plain glass", &seen)?;
    Ok(seen)
}

// Whether a glass on a link agrees with the plain one: in the chain's picture, whose colours every link carries unchanged,
// cell by cell, and in the card as carried.
fn on_link<L: Link + Drop>(
    text: &mut String,
    name: &str,
    link: L,
    plain: &Seen,
) -> Result<Verdict, AllocError> {
    let mut memory = [0; 32];
    let mut glass = Driver::fit(link, Lent::new(&mut memory), SIZE);
    let seen = visit(&mut glass);
    add_card(text, name, &seen)?;
    Ok(Verdict {
        pictures: seen.chain == plain.chain && agrees(&glass, &plain.card),
        answers: seen.told,
    })
}

// Whether the pictures agree, and whether every call was answered as it should be.
#[derive(Clone, Copy, Debug, PartialEq, Eq, Hash)]
struct Verdict {
    pictures: bool,
    answers: bool,
}

impl fmt::Display for Verdict {
    fn fmt<W: fmt::Write>(&self, f: &mut fmt::Formatter<W>) -> fmt::Result {
        let pictures = if self.pictures {
            "the pictures agree as carried"
        } else {
            "the pictures do not agree"
        };
        let answers = if self.answers {
            "the six glasses answer alike"
        } else {
            "the glasses do not answer alike"
        };
        write!(f, "{pictures}, and {answers}")
    }
}

fn report(heap: Global) -> Result<String, AllocError> {
    let mut text = String::new(heap);
    let plain = on_plain(&mut text)?;
    let zero = Serial::new(SerialId::Zero);
    let links = [
        on_link(&mut text, "18-bit link", EighteenBit, &plain)?,
        on_link(&mut text, "16-bit link", SixteenBit, &plain)?,
        on_link(&mut text, "9-bit link", NineBit::new(), &plain)?,
        on_link(&mut text, "8-bit link", EightBit::new(), &plain)?,
        on_link(&mut text, "serial link", zero, &plain)?,
    ];
    let verdict = Verdict {
        pictures: links.iter().all(|link| link.pictures),
        answers: plain.told && links.iter().all(|link| link.answers),
    };
    writeln!(text, "{verdict}")?;
    Ok(text)
}

fn main(rt: HostRuntime) -> io::Result<()> {
    let text = report(rt.alloc())?;
    print!(rt; "{text}")
}
