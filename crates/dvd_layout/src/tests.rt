//! Worked values from outside the program.
use crate::LayoutFault::{
    EmptyLayer, InitialTooLong, LayerLonger, LayerTooLong, OddLayer, SecondLayer, TailTooLong,
};
use crate::Shape::{Opposite, Parallel, Single};
use crate::{BlockPlan, Content, Layout, LayoutFault, Zones, id_of, rule_of};
use dvd_frame::{Area, Rule};

// A disk of two layers with the opposite track path: 32 and 16 sectors.
fn opposite() -> Result<Layout, LayoutFault> {
    Layout::new(Opposite, 32, 16, 0, 16)
}

// The fault of a layer that ends at this sector number.
fn too_long(layer: u8, end: u64) -> LayoutFault {
    LayerTooLong { layer, end }
}

#[test]
fn each_rule_refuses_with_its_number(rt: HostRuntime) {
    // Shape, sectors of both layers, blocks of the initial zone and of the tail, and the rule that these break.
    let refusals = [
        ((Single, 0, 0, 0, 16), EmptyLayer { layer: 0 }),
        ((Parallel, 16, 0, 0, 16), EmptyLayer { layer: 1 }),
        ((Opposite, 17, 16, 0, 16), OddLayer { sectors: 17 }),
        ((Single, 16, 16, 0, 16), SecondLayer { sectors: 16 }),
        ((Opposite, 16, 17, 0, 16), LayerLonger { sectors: 17 }),
        (
            (Single, 16, 0, 12_032, 12_289),
            InitialTooLong { blocks: 12_032 },
        ),
        ((Single, 16, 0, 0, 12_289), TailTooLong { blocks: 12_289 }),
        ((Single, 8_192_000, 0, 0, 16), too_long(0, 8_388_864)),
        ((Single, 8_191_745, 0, 0, 16), too_long(0, 8_388_624)),
        ((Parallel, 16, 8_192_000, 0, 16), too_long(1, 8_388_864)),
    ];
    for ((shape, sectors0, sectors1, initial, tail), fault) in refusals {
        let answer = Layout::new(shape, sectors0, sectors1, initial, tail);
        assert_eq!(rt; answer, Err(fault));
    }
    assert!(rt; Layout::new(Single, 8_192_000, 0, 0, 0).is_ok());
    assert!(rt; Layout::new(Single, 8_191_744, 0, 0, 16).is_ok());
}

#[test]
fn plan_follows_the_zone_table(rt: HostRuntime) -> Result<(), LayoutFault> {
    let layout = opposite()?;
    assert_eq!(rt; layout.blocks(Zones::All), 307);
    assert_eq!(rt; layout.blocks(Zones::DataOnly), 3);
    let parallel = Layout::new(Parallel, 32, 16, 0, 16)?;
    assert_eq!(rt; parallel.blocks(Zones::All), 547);
    let entries = [
        (0, 0x02_F000, Area::LeadIn, 0, Content::Reference),
        (2, 0x02_F020, Area::LeadIn, 0, Content::Zero),
        (32, 0x02_F200, Area::LeadIn, 0, Content::Control),
        (257, 0x03_0010, Area::DataZone, 0, Content::Image(16)),
        (258, 0x03_0020, Area::Middle, 0, Content::Zero),
        (274, 0xFC_FEE0, Area::Middle, 1, Content::Zero),
        (290, 0xFC_FFE0, Area::DataZone, 1, Content::Image(32)),
        (291, 0xFC_FFF0, Area::LeadOut, 1, Content::Zero),
    ];
    for (k, first, area, layer, content) in entries {
        if k < layout.blocks(Zones::All) {
            let entry = BlockPlan {
                first,
                area,
                layer,
                content,
            };
            assert_eq!(rt; layout.plan(Zones::All, k), entry);
        }
    }
    Ok(())
}

#[test]
fn image_sectors_have_places(rt: HostRuntime) -> Result<(), LayoutFault> {
    let layout = opposite()?;
    assert_eq!(rt; layout.total(), 48);
    assert!(rt; layout.dim());
    for (lba, layer, number) in [(0, 0, 0x03_0000), (31, 0, 0x03_001F), (32, 1, 0xFC_FFE0)] {
        if lba < layout.total() {
            assert_eq!(rt; layout.sector_of(lba), (layer, number));
        }
        assert_eq!(rt; layout.lba_of(layer, number), Some(lba));
    }
    for (layer, number) in [
        (0, 0x03_0020),
        (1, 0xFC_FFF0),
        (1, 0xFC_FFDF),
        (2, 0x03_0000),
    ] {
        assert_eq!(rt; layout.lba_of(layer, number), None);
    }
    Ok(())
}

#[test]
fn blocks_hold_their_image_sectors(rt: HostRuntime) -> Result<(), LayoutFault> {
    let single = Layout::new(Single, 33, 0, 0, 16)?;
    let opposite = opposite()?;
    let counts = [
        (single, Content::Image(16), 16),
        (single, Content::Image(32), 1),
        (single, Content::Image(48), 0),
        (single, Content::Control, 0),
        (opposite, Content::Image(16), 16),
        (opposite, Content::Image(32), 16),
        (opposite, Content::Zero, 0),
    ];
    for (layout, content, count) in counts {
        assert_eq!(rt; layout.image_sectors(content), count);
    }
    Ok(())
}

#[test]
fn frames_have_ids_and_rules(rt: HostRuntime) {
    let entry = BlockPlan {
        first: 0xFC_FFE0,
        area: Area::DataZone,
        layer: 1,
        content: Content::Image(32),
    };
    assert_eq!(rt; id_of(&entry, true, 15).word(), 0x21FC_FFEF);
    let rules = [
        (Content::Reference, 0, Rule::First160),
        (Content::Reference, 1, Rule::Off),
        (Content::Zero, 0, Rule::Whole),
        (Content::Control, 15, Rule::Whole),
        (Content::Image(0), 1, Rule::Whole),
    ];
    for (content, f, rule) in rules {
        assert_eq!(rt; rule_of(content, f), rule);
    }
}

#[test]
fn layouts_are_alike_in_all_numbers(rt: HostRuntime) {
    let layouts = [
        Layout::new(Parallel, 16, 16, 0, 1),
        Layout::new(Opposite, 16, 16, 0, 1),
        Layout::new(Parallel, 32, 16, 0, 1),
        Layout::new(Parallel, 16, 17, 0, 1),
        Layout::new(Parallel, 16, 16, 1, 1),
        Layout::new(Parallel, 16, 16, 0, 2),
    ];
    for (i, layout) in layouts.iter().enumerate() {
        assert!(rt; layout.is_ok());
        for (j, other) in layouts.iter().enumerate() {
            assert_eq!(rt; *layout == *other, i == j);
        }
    }
}
