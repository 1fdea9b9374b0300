//! A picture as text: one letter for each cell, one line for each row.
#![tactic(auto)]

ghost use Rattle.std.specs.Prelude.{◌≡◌, ◌++◌, map, IfOk, OnOk};
ghost use Rattle.std.specs.String.{string_bytes};
ghost use Rattle.picture.specs.Letters.{letter_of, lettered};

use pixel::colour::{blue, green, red};
use std::alloc::{AllocError, Global};

// By 4 × red's top bit + 2 × green's + blue's.
const LETTERS: [char; 8] = ['K', 'B', 'G', 'C', 'R', 'M', 'Y', 'W'];

/// The letter of a colour: K B G C R M Y W.
pub fn letter(colour: u32) -> char
    ensures { result ≡ letter_of colour }
{
    LETTERS[(red(colour) / 32 * 4 + green(colour) / 32 * 2 + blue(colour) / 32) as usize]
}

// Adds the letters of some cells.
fn add_letters(text: &mut String, cells: &[u32]) -> Result<(), AllocError>
    ensures { OnOk result
        (string_bytes text.new ≡ string_bytes text.old ++ map letter_of cells.now) }
{
    text.extend(cells.iter().map(|cell| letter(*cell)))
}

/// The cells' letters, and a line end after each `width` of them; a width of 0 counts as 1.
#[tactic(auto, using(crate::proofs::Lines::by_rows))]
pub fn rows(heap: Global, cells: &[u32], width: usize) -> Result<String, AllocError>
    ensures { IfOk result (λ text. string_bytes text ≡ lettered width width cells.now) }
{
    let width = width.max(1);
    let mut text = String::new(heap);
    for row in cells.chunks(width) {
        add_letters(&mut text, row)?;
        if row.len() == width {
            text.push('\n')?;
        }
    }
    Ok(text)
}
