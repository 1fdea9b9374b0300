//! Tests with beats that no host of ours sends: what each link and the controller make of them.
#![tactic(auto)]

#[cfg(test)]
mod tests {
    use cells::Lent;
    use full_links::eighteen::EighteenBit;
    use full_links::nine::NineBit;
    use lgdp4522::Lgdp4522;
    use link::{Item, Link, LinkFault};
    use pixel::rect::{Place, Size};
    use refusal::Layer;
    use short_links::eight::EightBit;
    use short_links::serial::{Serial, SerialId};

    const NOTHING: Result<Option<Item>, LinkFault> = Ok(None);

    const WIDE: Result<Option<Item>, LinkFault> = Err(LinkFault::Wide);

    // The first beat's register select decides, whatever the second's is.
    #[test]
    fn select_changes_within_an_item(rt: HostRuntime) {
        let mut nine = NineBit::new();
        assert!(rt; nine.take(0, true, 0x15e) == NOTHING);
        assert!(rt; nine.take(0, false, 0x002) == Ok(Some(Item::Word(0xaf01))));
        let mut eight = EightBit::new();
        assert!(rt; eight.take(0x22, false, 0x00) == NOTHING);
        assert!(rt; eight.take(0x22, true, 0x44) == Ok(Some(Item::Index(0x44))));
        assert!(rt; eight.take(0x22, true, 0xff) == NOTHING);
        assert!(rt; eight.take(0x22, false, 0xff) == Ok(Some(Item::Colour(0x3effe))));
    }

    // After a start byte of the other ID, or one that asks to read, nothing is taken until the next select.
    #[test]
    fn start_bytes_of_others(rt: HostRuntime) {
        let mut serial = Serial::new(SerialId::Zero);
        for start in [0x74u8, 0x76, 0x71, 0x73, 0x00, 0xff] {
            serial.select();
            assert!(rt; serial.take(0, true, start) == NOTHING);
            assert!(rt; serial.take(0, true, 0x00) == NOTHING);
            assert!(rt; serial.take(0, true, 0x22) == NOTHING);
            assert!(rt; serial.take(0, true, 0x70) == NOTHING);
            assert!(rt; serial.take(0, true, 0x00) == NOTHING);
            assert!(rt; serial.take(0, true, 0x22) == NOTHING);
        }
        serial.select();
        assert!(rt; serial.take(0, true, 0x70) == NOTHING);
        assert!(rt; serial.take(0, true, 0x00) == NOTHING);
        assert!(rt; serial.take(0, true, 0x22) == Ok(Some(Item::Index(0x22))));
    }

    // A select drops a half item.
    #[test]
    fn half_items_before_a_select(rt: HostRuntime) {
        let mut nine = NineBit::new();
        assert!(rt; nine.take(0, true, 0x1ff) == NOTHING);
        nine.select();
        assert!(rt; nine.take(0, true, 0x15e) == NOTHING);
        assert!(rt; nine.take(0, true, 0x002) == Ok(Some(Item::Word(0xaf01))));
        let mut serial = Serial::new(SerialId::One);
        assert!(rt; serial.take(0, false, 0x76) == NOTHING);
        assert!(rt; serial.take(0, false, 0xdb) == NOTHING);
        serial.select();
        assert!(rt; serial.take(0, false, 0x74) == NOTHING);
        assert!(rt; serial.take(0, false, 0x80) == NOTHING);
        assert!(rt; serial.take(0, false, 0x45) == Ok(Some(Item::Index(0x45))));
    }

    // Further byte pairs are further items under the same start byte.
    #[test]
    fn four_bytes_under_one_start_byte(rt: HostRuntime) {
        let mut serial = Serial::new(SerialId::One);
        assert!(rt; serial.take(0x22, false, 0x76) == NOTHING);
        assert!(rt; serial.take(0x22, false, 0xf8) == NOTHING);
        assert!(rt; serial.take(0x22, false, 0x00) == Ok(Some(Item::Colour(0x3e000))));
        assert!(rt; serial.take(0x44, false, 0x07) == NOTHING);
        assert!(rt; serial.take(0x44, false, 0x00) == Ok(Some(Item::Word(0x0700))));
    }

    // A beat one above the width is refused and changes nothing, also within an item.
    #[test]
    fn beats_above_the_width(rt: HostRuntime) {
        assert!(rt; LinkFault::Wide.number() == 1);
        assert!(rt; LinkFault::Wide.layer() == Layer::Link);
        let mut eighteen = EighteenBit;
        assert!(rt; eighteen.take(0x22, true, 0x40000) == WIDE);
        assert!(rt; eighteen.take(0x22, true, 0x3ffff) == Ok(Some(Item::Colour(0x3ffff))));
        let mut nine = NineBit::new();
        assert!(rt; nine.take(0x22, true, 0x200) == WIDE);
        assert!(rt; nine.take(0x22, true, 0x1ff) == NOTHING);
        assert!(rt; nine.take(0x22, true, 0x200) == WIDE);
        assert!(rt; nine.take(0x22, true, 0x000) == Ok(Some(Item::Colour(0x3fe00))));
    }

    // At the controller: a half item and a wide beat leave the picture alone, and a beat later it is drawn.
    #[test]
    fn strays_at_the_controller(rt: HostRuntime) {
        let mut cells = [7u32; 2];
        let mut chip = Lgdp4522::fit(
            NineBit::new(),
            Lent::new(&mut cells),
            Size {
                width: 2,
                height: 1,
            },
        );
        assert!(rt; chip.take(false, 0x000).is_ok());
        assert!(rt; chip.take(true, 0x044).is_ok());
        assert!(rt; chip.take(true, 0x1ff).is_ok());
        assert!(rt; chip.take(true, 0x200).is_err());
        chip.select();
        assert!(rt; chip.cell(Place { x: 0, y: 0 }) == Some(0));
        assert!(rt; chip.take(true, 0x1ff).is_ok());
        assert!(rt; chip.take(true, 0x000).is_ok());
        assert!(rt; chip.cell(Place { x: 0, y: 0 }) == Some(0x3fe00));
        assert!(rt; chip.cell(Place { x: 1, y: 0 }) == Some(0));
        assert!(rt; chip.cell(Place { x: 2, y: 0 }) == None);
    }
}
