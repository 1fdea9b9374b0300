//! Addresses as the controller counts them, offsets as memory does, and the one conversion between them.
ghost use Rattle.std.specs.Prelude.{◌≡◌};
ghost use Rattle.pixel.specs.Addresses.{address_at, address_of, offset_at, offset_of, place_of};

use crate::rect::{Place, Size};

/// A cell's address AD: row × 256 + column.
#[derive(Clone, Copy, Debug, PartialEq, Eq, Hash)]
pub struct Address {
    number: u16,
}

/// Where a cell lies in memory: row × width + column. Only `Address::offset` makes one.
#[derive(Clone, Copy, Debug, PartialEq, Eq, Hash)]
pub struct Offset {
    index: usize,
}

// Every word of 16 bits is an address, on a screen or off it.
impl From<u16> for Address {
    ghost from_gives = { λ number address. address ≡ address_at number };

    fn from(number: u16) -> Address {
        Address { number }
    }
}

impl From<Address> for u16 {
    ghost from_gives = { λ address number. number ≡ address.number };

    fn from(address: Address) -> u16 {
        address.number
    }
}

impl From<Address> for Place {
    ghost from_gives = { λ address place. place ≡ place_of address };

    fn from(address: Address) -> Place {
        Place {
            x: address.number % 256,
            y: address.number / 256,
        }
    }
}

impl Address {
    /// The address of a place; one beyond column or row 255 has none.
    // No `TryFrom`: there is no more to tell than that, and `?` on an option reads plainer than an error that is thrown away.
    pub fn of(place: Place) -> Option<Address>
        ensures { result ≡ address_of place }
    {
        if place.x < 256 && place.y < 256 {
            Some(Address {
                number: place.y * 256 + place.x,
            })
        } else {
            None
        }
    }

    /// The offset in the memory of a screen; an address off the screen has none.
    pub fn offset(self, size: Size) -> Option<Offset>
        ensures { result ≡ offset_of size self }
    {
        let Place { x, y } = Place::from(self);
        if x < size.width && y < size.height {
            Some(Offset {
                index: y as usize * size.width as usize + x as usize,
            })
        } else {
            None
        }
    }
}

impl Offset {
    pub fn index(self) -> usize
        ensures { result ≡ self.index }
    {
        self.index
    }
}

impl Place {
    /// The offset of a place on a screen, by way of its address.
    pub fn offset(self, size: Size) -> Option<Offset>
        ensures { result ≡ offset_at size self }
    {
        Address::of(self)?.offset(size)
    }
}
