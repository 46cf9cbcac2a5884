//! Worked values from outside the program.
use crate::{ControlFault, PhysicalFormat, main_of};
use dvd_layout::{Layout, LayoutFault, Shape, Zones};

// The physical format of one layer of 16 sectors.
const SINGLE: [u8; 17] = [
    0x01, 0x02, 0x01, 0x00, 0x00, 0x03, 0x00, 0x00, 0x00, 0x03, 0x00, 0x0F, 0x00, 0x00, 0x00, 0x00,
    0x00,
];

// That of the opposite track path with 32 and 16 sectors.
const OPPOSITE: [u8; 17] = [
    0x01, 0x02, 0x31, 0x10, 0x00, 0x03, 0x00, 0x00, 0x00, 0xFC, 0xFF, 0xEF, 0x00, 0x03, 0x00, 0x1F,
    0x00,
];

// That of layer 1 on the parallel track path with 32 and 16 sectors.
const PARALLEL_LAYER_1: [u8; 17] = [
    0x01, 0x02, 0x21, 0x10, 0x00, 0x03, 0x00, 0x00, 0x00, 0x03, 0x00, 0x0F, 0x00, 0x00, 0x00, 0x00,
    0x00,
];

// The sector with these first bytes, and then zeros.
fn sector(head: &[u8; 17]) -> [u8; 2048] {
    let mut bytes = [0; 2048];
    bytes[..17].copy_from_slice(head);
    bytes
}

#[test]
fn formats_of_layouts_are_written_and_read_back(rt: HostRuntime) -> Result<(), LayoutFault> {
    let single = Layout::new(Shape::Single, 16, 0, 0, 16)?;
    let opposite = Layout::new(Shape::Opposite, 32, 16, 0, 16)?;
    for (layout, head) in [(single, SINGLE), (opposite, OPPOSITE)] {
        let format = PhysicalFormat::of_layout(&layout, 0);
        let mut written = [0xFF; 2048];
        format.to_bytes(&mut written);
        assert_eq!(rt; written, sector(&head));
        assert_eq!(rt; PhysicalFormat::from_bytes(&written), Ok(format));
    }
    let parallel = Layout::new(Shape::Parallel, 32, 16, 0, 16)?;
    if parallel.shape == Shape::Parallel {
        let mut written = [0xFF; 2048];
        PhysicalFormat::of_layout(&parallel, 1).to_bytes(&mut written);
        assert_eq!(rt; written, sector(&PARALLEL_LAYER_1));
    }
    Ok(())
}

#[test]
fn sectors_that_break_a_rule_are_refused(rt: HostRuntime) {
    let mut size = sector(&SINGLE);
    size[1] = 0x12;
    let mut layers = sector(&SINGLE);
    layers[2] = 0x41;
    let mut range = sector(&SINGLE);
    range[9..12].copy_from_slice(&[0x02, 0xFF, 0xFF]);
    let refusals = [
        ([0x20; 2048], ControlFault::Category { byte: 32 }),
        (size, ControlFault::Size { byte: 18 }),
        (layers, ControlFault::Layers { byte: 65 }),
        (
            range,
            ControlFault::Range {
                first: 196_608,
                last: 196_607,
            },
        ),
    ];
    for (bytes, fault) in refusals {
        assert_eq!(rt; PhysicalFormat::from_bytes(&bytes), Err(fault));
    }
}

// The physical format of one layer of 16 sectors, with another byte.
fn format_with(at: usize, byte: u8) -> Result<PhysicalFormat, ControlFault> {
    let mut bytes = sector(&SINGLE);
    if at < bytes.len() {
        bytes[at] = byte;
    }
    PhysicalFormat::from_bytes(&bytes)
}

#[test]
fn formats_are_alike_in_all_fields(rt: HostRuntime) {
    let formats = [
        format_with(0, 0x01),
        format_with(0, 0x00),
        format_with(1, 0x01),
        format_with(2, 0x21),
        format_with(2, 0x11),
        format_with(2, 0x02),
        format_with(3, 0x10),
        format_with(3, 0x01),
        format_with(11, 0x1F),
        format_with(15, 0x01),
    ];
    for (i, format) in formats.iter().enumerate() {
        assert!(rt; format.is_ok());
        for (j, other) in formats.iter().enumerate() {
            assert_eq!(rt; *format == *other, i == j);
        }
    }
}

// The first byte of frame 0 and the last of frame 1 of entry k, or zeros where it is image.
fn outer_bytes(layout: &Layout, k: u64) -> (u8, u8) {
    let mut first = [0; 2048];
    let mut second = [0; 2048];
    if k < layout.blocks(Zones::All) {
        let entry = layout.plan(Zones::All, k);
        if !matches!(entry.content, dvd_layout::Content::Image(_)) {
            main_of(layout, &entry, 0, &mut first);
            main_of(layout, &entry, 1, &mut second);
        }
    }
    (first[0], second[2047])
}

#[test]
fn main_data_follow_the_content(rt: HostRuntime) -> Result<(), LayoutFault> {
    let layout = Layout::new(Shape::Single, 16, 0, 1, 16)?;
    for (k, bytes) in [
        (0, (0, 0)),
        (1, (0xAC, 0xAC)),
        (33, (0x01, 0)),
        (258, (0, 0)),
    ] {
        assert_eq!(rt; outer_bytes(&layout, k), bytes);
    }
    Ok(())
}
