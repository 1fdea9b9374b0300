//! The refusals of frame, go, ink and shade in their order, for every glass: what a call is told before anything is changed.
ghost use Rattle.std.specs.Prelude.{◌≡◌, IfOk};
ghost use Rattle.pixel.specs.Modes.{mode_of};
ghost use Rattle.glass.specs.Faults.{answered};
ghost use Rattle.glass.specs.Calls.{FrameTaken, GoTaken, InkTaken, frame_refusal, go_refusal, ink_refusal, shade_number};

use crate::GlassFault;
use pixel::colour::FULL;
use pixel::mode::Mode;
use pixel::rect::{Place, Rect, Size};

/// The colour of ink or shade, or the mask of frame: above 3FFFFh it is refused.
pub fn narrow(colour: u32) -> Result<u32, GlassFault>
    ensures answer { answered result ≡ shade_number colour }
    ensures value { IfOk result (λ c. c ≡ colour) }
{
    if colour > FULL {
        return Err(GlassFault::Colour);
    }
    Ok(colour)
}

/// Frame on a glass of this size: asleep, rectangle, mode, mask. Accepted, the mode of the number.
pub fn frame(asleep: bool, size: Size, rect: Rect, mode: u8, mask: u32) -> Result<Mode, GlassFault>
    ensures answer { answered result ≡ frame_refusal asleep size rect mode mask }
    ensures value { IfOk result (λ m. (m ≡ mode_of mode) × FrameTaken asleep size rect mode mask) }
{
    if asleep {
        return Err(GlassFault::Asleep);
    }
    if !rect.fits(size) {
        return Err(GlassFault::Window);
    }
    let mode = Mode::try_from(mode)?;
    narrow(mask)?;
    Ok(mode)
}

/// Go on a glass with this window: asleep, place. Accepted, the window that holds the place.
pub fn go(asleep: bool, window: Option<Rect>, place: Place) -> Result<Rect, GlassFault>
    ensures answer { answered result ≡ go_refusal asleep window place }
    ensures value { IfOk result (λ q. GoTaken asleep window place q) }
{
    if asleep {
        return Err(GlassFault::Asleep);
    }
    window
        .filter(|rect| rect.holds(place))
        .ok_or(GlassFault::Outside)
}

/// Ink on a glass with this window: asleep, window, colour. Accepted, the window that the colour goes to.
pub fn ink(asleep: bool, window: Option<Rect>, colour: u32) -> Result<Rect, GlassFault>
    ensures answer { answered result ≡ ink_refusal asleep window colour }
    ensures value { IfOk result (λ q. InkTaken asleep window colour q) }
{
    if asleep {
        return Err(GlassFault::Asleep);
    }
    let rect = window.ok_or(GlassFault::Window)?;
    narrow(colour)?;
    Ok(rect)
}
