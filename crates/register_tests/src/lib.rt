//! Tests of each register by its number, over the 16-bit link, whose beats are the words themselves.
#![tactic(auto)]

#[cfg(test)]
mod tests {
    use cells::Lent;
    use lgdp4522::Lgdp4522;
    use pixel::rect::{Place, Size};
    use short_links::sixteen::SixteenBit;

    type Chip<'a> = Lgdp4522<SixteenBit, Lent<'a>>;

    fn fitted<'a>(cells: &'a mut [u32], width: u16, height: u16) -> Chip<'a> {
        Lgdp4522::fit(SixteenBit, Lent::new(cells), Size { width, height })
    }

    fn set(chip: &mut Chip, index: u16, word: u16) -> bool {
        chip.take(false, index).is_ok() && chip.take(true, word).is_ok()
    }

    // A short colour at the place.
    fn ink(chip: &mut Chip, short: u16) -> bool {
        set(chip, 0x22, short)
    }

    fn shows(chip: &Chip, x: u16, y: u16, colour: u32) -> bool {
        chip.cell(Place { x, y }) == Some(colour)
    }

    // 23h masks green and blue, 24h red; a masked part stays.
    #[test]
    fn masks(rt: HostRuntime) {
        let mut cells = [9u32; 2];
        let mut chip = fitted(&mut cells, 2, 1);
        assert!(rt; set(&mut chip, 0x23, 0x3f00) && ink(&mut chip, 0xffff));
        assert!(rt; shows(&chip, 0, 0, 0x3e03e));
        assert!(rt; set(&mut chip, 0x24, 0x003f) && ink(&mut chip, 0xffff));
        assert!(rt; shows(&chip, 1, 0, 0x0003e));
        assert!(rt; set(&mut chip, 0x23, 0x003f) && ink(&mut chip, 0xffff));
        assert!(rt; shows(&chip, 0, 0, 0x3effe) && shows(&chip, 1, 0, 0x0003e));
    }

    // 03h bit 12 exchanges red and blue; 10h bit 1 is sleep, in which only 10h is heeded.
    #[test]
    fn exchange_and_sleep(rt: HostRuntime) {
        let mut cells = [0u32; 2];
        let mut chip = fitted(&mut cells, 2, 1);
        assert!(rt; set(&mut chip, 0x03, 0x1030) && ink(&mut chip, 0xf800));
        assert!(rt; shows(&chip, 0, 0, 0x0003e));
        assert!(rt; set(&mut chip, 0x10, 0x0002) && chip.asleep());
        assert!(rt; set(&mut chip, 0x03, 0x0030) && ink(&mut chip, 0xffff));
        assert!(rt; shows(&chip, 1, 0, 0));
        assert!(rt; set(&mut chip, 0x10, 0x0001) && !chip.asleep());
        assert!(rt; ink(&mut chip, 0xf800) && shows(&chip, 1, 0, 0x0003e));
    }

    // 44h, 45h and 21h: windows out of order or off the screen and places outside the window are dropped.
    #[test]
    fn windows_and_places(rt: HostRuntime) {
        let mut cells = [0u32; 6];
        let mut chip = fitted(&mut cells, 3, 2);
        assert!(rt; set(&mut chip, 0x44, 0x0201) && set(&mut chip, 0x45, 0x0101));
        assert!(rt;
            set(&mut chip, 0x44, 0x0301)
                && set(&mut chip, 0x44, 0x0001)
                && set(&mut chip, 0x45, 0x0200)
        );
        assert!(rt; ink(&mut chip, 0xf800) && shows(&chip, 1, 1, 0x3e000));
        assert!(rt;
            set(&mut chip, 0x21, 0x0101) && set(&mut chip, 0x21, 0x0002) && ink(&mut chip, 0x07e0)
        );
        assert!(rt; shows(&chip, 1, 1, 0x00fc0) && shows(&chip, 2, 0, 0));
        assert!(rt; ink(&mut chip, 0x001f) && ink(&mut chip, 0xffff));
        assert!(rt;
            shows(&chip, 2, 1, 0x0003e) && shows(&chip, 1, 1, 0x3effe) && shows(&chip, 0, 0, 0)
        );
    }
}
