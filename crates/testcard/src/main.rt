//! Draws the test card over each of the five links, and prints it.
#![tactic(auto)]

use card::page::page;
use std::io;

fn main(rt: HostRuntime) -> io::Result<()> {
    let text = page(rt.alloc())?;
    print!(rt; "{text}")
}
