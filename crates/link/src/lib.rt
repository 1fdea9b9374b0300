//! Links: how items go to the controller as beats, and how beats arrive as items.
#![tactic(auto)]

ghost use Rattle.std.specs.Prelude.{◌≡◌, ℕ, length, ◌==◌};
ghost use Rattle.std.specs.List.{slice_get};
ghost use Rattle.link.specs.Items.{counted, item_of, select_level};
ghost use Rattle.link.specs.Faults.{fault_layer, fault_number};
ghost use Rattle.link.specs.Formats.{Lawful, State, answered, dropped, taken, took};

use refusal::Layer;

/// What travels in one piece: an index names a register (7 bits), a word goes into it (16 bits), a colour goes into a cell (18 bits).
#[derive(Clone, Copy, Debug, PartialEq, Eq, Hash)]
pub enum Item {
    Index(u8),
    Word(u16),
    Colour(u32),
}

impl Item {
    /// The level of register select, true for high: low for an index.
    pub fn level(self) -> bool
        ensures { result ≡ select_level self }
    {
        match self {
            Item::Index(_) => false,
            Item::Word(_) | Item::Colour(_) => true,
        }
    }

    /// How many beats it takes, where a word (or an index) takes so many, and a colour so many.
    pub fn count(self, word: usize, colour: usize) -> usize
        ensures { result ≡ counted word colour self }
    {
        match self {
            Item::Index(_) | Item::Word(_) => word,
            Item::Colour(_) => colour,
        }
    }

    /// What arrives: register select low, an index, by its lower seven bits; high, a colour if the index is 22h, else a word.
    // 22h stands as a number, as the rule says it: of all registers a link has to know this one alone.
    pub fn arriving(rs: bool, index: u8, word: u16, colour: u32) -> Item
        ensures { result ≡ item_of rs (index == 0x22) word colour }
    {
        if !rs {
            Item::Index((word % 128) as u8)
        } else if index == 0x22 {
            Item::Colour(colour)
        } else {
            Item::Word(word)
        }
    }
}

/// A beat as it arrives, under a level of register select.
#[derive(Clone, Copy, Debug, PartialEq, Eq, Hash)]
pub struct Taken<B: Copy> {
    pub rs: bool,
    pub beat: B,
}

#[derive(Clone, Copy, Debug, PartialEq, Eq, Hash)]
pub enum LinkFault {
    /// a beat wider than the link
    Wide = 1,
}

impl LinkFault {
    // A refusal is told by its number and its layer: so the rule wants it. Each enum has its own; nothing is generic over them.
    pub fn number(self) -> u8
        ensures { result ≡ fault_number self }
    {
        self as u8
    }

    pub fn layer(self) -> Layer
        ensures { result ≡ fault_layer self }
    {
        Layer::Link
    }
}

/// Both ends of a link: the host's beats of an item, and the controller's side, which takes beats and gives items.
pub trait Link {
    type Beat: Copy;

    // how many beats a word (or an index) takes, and a colour
    ghost WORD_BEATS: { ℕ };

    const WORD_BEATS: usize;

    ghost COLOUR_BEATS: { ℕ };

    const COLOUR_BEATS: usize;

    // how items go as beats, how beats arrive as items, and how a colour is carried; and the beats held of an unfinished item
    ghost state: { Self → State Self.Beat };

    /// How many beats an item takes.
    final fn count(&self, item: Item) -> usize
        ensures { result ≡ length ((state self.now).format.beats item) }
    {
        item.count(Self::WORD_BEATS, Self::COLOUR_BEATS)
    }

    /// Beat n of an item, from 0; past the last there is none.
    fn beat(&self, item: Item, n: usize) -> Option<Self::Beat>
        ensures { result ≡ slice_get ((state self.now).format.beats item) n };

    /// The colour that a colour arrives as.
    fn carry(&self, colour: u32) -> u32
        ensures { result ≡ (state self.now).format.carried colour };

    /// A falling chip select drops a half item.
    fn select(&mut self)
        ensures { state self.new ≡ dropped (state self.old) };

    /// One beat, under a level of register select and the controller's index: the item that it completes, if any.
    /// A beat wider than the link is refused and changes nothing.
    // Register select and beat are two wires and two parameters: one struct for both would be made at each call to be taken
    // apart at once.
    fn take(&mut self, index: u8, rs: bool, beat: Self::Beat) -> Result<Option<Item>, LinkFault>
        ensures answer { result ≡ answered (index == 0x22) (taken rs beat) (state self.old) }
        ensures after { state self.new ≡ took (taken rs beat) (state self.old) };

    ghost lawful: { (s : Self) → Lawful WORD_BEATS COLOUR_BEATS (state s).format };
}
