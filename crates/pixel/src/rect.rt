//! Sizes, places and rectangles. A cell (x, y) is column x from the left and row y from the top, from 0.
ghost use Rattle.std.specs.Prelude.{◌≡◌};
ghost use Rattle.pixel.specs.Rects.{fits_in, holds_place};

#[derive(Clone, Copy, Debug, PartialEq, Eq, Hash)]
pub struct Size {
    pub width: u16,
    pub height: u16,
}

#[derive(Clone, Copy, Debug, PartialEq, Eq, Hash)]
pub struct Place {
    pub x: u16,
    pub y: u16,
}

/// Both edges of a rectangle belong to it.
#[derive(Clone, Copy, Debug, PartialEq, Eq, Hash)]
pub struct Rect {
    pub left: u16,
    pub top: u16,
    pub right: u16,
    pub bottom: u16,
}

impl Rect {
    /// Whether it lies inside a screen: left ≤ right < width and top ≤ bottom < height.
    pub fn fits(self, size: Size) -> bool
        ensures { result ≡ fits_in size self }
    {
        self.left <= self.right
            && self.right < size.width
            && self.top <= self.bottom
            && self.bottom < size.height
    }

    pub fn holds(self, place: Place) -> bool
        ensures { result ≡ holds_place self place }
    {
        (self.left..=self.right).contains(&place.x) && (self.top..=self.bottom).contains(&place.y)
    }
}
