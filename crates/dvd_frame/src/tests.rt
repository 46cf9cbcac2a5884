//! Worked values from outside the program, EDCs against a division bit by bit, and frames that are made and read back.
use crate::{
    Area, FrameCause, Id, Keystream, Rule, Scrambler, edc, ied, make_frame, make_frame_with,
    preset, read_frame, read_frame_into, scramble,
};
use std::test::Fail;

#[test]
fn ieds_of_known_words(rt: HostRuntime) {
    let known: [(u32, [u8; 2]); 5] = [
        (0x0003_0000, [0x11, 0x12]),
        (0x0003_0010, [0x21, 0x32]),
        (0x0402_F000, [0x88, 0x7E]),
        (0x21FC_FFE0, [0x5F, 0x9D]),
        (0, [0x00, 0x00]),
    ];
    for (word, check) in known {
        assert_eq!(rt; ied(Id::from_word(word)), check);
    }
}

#[test]
fn edcs_of_known_bytes(rt: HostRuntime) {
    assert_eq!(rt; edc(&[0x01]), [0x80, 0x00, 0x00, 0x11]);
    assert_eq!(rt; edc(&[0x02]), [0x80, 0x00, 0x00, 0x33]);
    assert_eq!(rt; edc(&[]), [0; 4]);
}

// The remainder of a list of bytes, bit by bit.
fn divided_by_bits(bytes: &[u8]) -> u32 {
    let mut register = 0;
    for byte in bytes {
        register ^= (*byte as u32) << 24;
        for _ in 0..8 {
            let leaving = register >> 31;
            register = register << 1 ^ leaving * 0x8000_0011;
        }
    }
    register
}

// A list of drawn bytes: a word of 64 bits is shifted three times for each, which is its top eight bits.
fn draw(bytes: &mut [u8]) {
    let mut state = 0x9E37_79B9_7F4A_7C15u64;
    for byte in bytes {
        state ^= state << 13;
        state ^= state >> 7;
        state ^= state << 17;
        *byte = state.to_be_bytes()[0];
    }
}

// The EDC of a frame covers 2,060 bytes, and lists of 2,048 to 2,080 are folded.
#[test]
fn edcs_of_drawn_bytes(rt: HostRuntime) {
    let mut bytes = [0; 2100];
    draw(&mut bytes);
    for step in 0..71 {
        let list = &bytes[..30 * step];
        assert_eq!(rt; edc(list), divided_by_bits(list).to_be_bytes());
    }
    for start in 19..42 {
        let list = &bytes[start..];
        assert_eq!(rt; edc(list), divided_by_bits(list).to_be_bytes());
    }
}

#[test]
fn the_fields_of_an_id(rt: HostRuntime) {
    let id = Id::new(Area::LeadIn, 0, false, 0x02_F000);
    assert_eq!(rt; id.word(), 0x0402_F000);
    let other = Id::new(Area::DataZone, 1, true, 0xFC_FFE0);
    assert_eq!(rt; other.word(), 0x21FC_FFE0);
    assert_eq!(rt; other.bytes(), [0x21, 0xFC, 0xFF, 0xE0]);
    assert!(rt;
        other.area() == Area::DataZone && other.layer() == 1 && other.number() == 0xFC_FFE0
    );
    assert!(rt; other.same_place(Id::from_word(0x01FC_FFE0)));
    assert!(rt; !other.same_place(Id::from_word(0x20FC_FFE0)));
    assert!(rt; Id::from_word(0x0B00_0000).area() == Area::LeadOut);
    assert!(rt; Id::from_word(0xFF00_0000).area() == Area::Middle);
}

#[test]
fn the_sixteen_presets(rt: HostRuntime) {
    let known = [
        0x0001, 0x5500, 0x0002, 0x2A00, 0x0004, 0x5400, 0x0008, 0x2800, 0x0010, 0x5000, 0x0020,
        0x2001, 0x0040, 0x4002, 0x0080, 0x0005,
    ];
    for index in 0..16u8 {
        assert_eq!(rt; preset(index), known[index as usize]);
    }
}

#[test]
fn keystreams_of_two_presets(rt: HostRuntime) {
    let mut first = Keystream::new(0x0001);
    for byte in [0x01, 0x00, 0x22, 0x04, 0x04, 0x88, 0x98] {
        assert_eq!(rt; first.next(), byte);
    }
    let mut second = Keystream::new(0x5500);
    for byte in [0x00, 0x0A, 0x01] {
        assert_eq!(rt; second.next(), byte);
    }
}

// The preset is selected by b7 to b4 of the ID.
#[test]
fn zeros_scrambled_by_four_ids(rt: HostRuntime) {
    let known: [(u32, [u8; 3]); 4] = [
        (0x03_0000, [0x01, 0x00, 0x22]),
        (0x03_0010, [0x00, 0x0A, 0x01]),
        (0x03_00F0, [0x05, 0x00, 0xAA]),
        (0x03_0100, [0x01, 0x00, 0x22]),
    ];
    for (word, prefix) in known {
        let mut main = [0; 2048];
        scramble(Rule::Whole, Id::from_word(word), &mut main);
        assert_eq!(rt; &main[..3], prefix.as_slice());
        scramble(Rule::Whole, Id::from_word(word), &mut main);
        assert_eq!(rt; main[2047], 0);
    }
}

#[test]
fn scrambled_zeros_are_the_keystream(rt: HostRuntime) {
    let mut main = [0; 2048];
    scramble(Rule::Whole, Id::from_word(0x03_0010), &mut main);
    let mut stream = Keystream::new(0x5500);
    for byte in main {
        assert_eq!(rt; byte, stream.next());
    }
}

// A sector of zeros at 030000.
#[test]
fn the_first_data_frame(rt: HostRuntime) {
    let id = Id::new(Area::DataZone, 0, false, 0x03_0000);
    let mut frame = [0xFF; 2064];
    make_frame(id, &[0; 6], Rule::Whole, &[0; 2048], &mut frame);
    let prefix = [
        0, 3, 0, 0, 0x11, 0x12, 0, 0, 0, 0, 0, 0, 0x01, 0x00, 0x22, 0x04,
    ];
    assert!(rt; frame.starts_with(&prefix));
    assert!(rt; frame.ends_with(&[0x02, 0xAE, 0xBA, 0xF1]));
}

// In the Reference Code Zone Main Data are AC, and only the first 160 bytes are scrambled.
#[test]
fn the_first_reference_frame(rt: HostRuntime) {
    let id = Id::new(Area::LeadIn, 0, false, 0x02_F000);
    let mut frame = [0xFF; 2064];
    make_frame(
        id,
        &[1, 2, 3, 4, 5, 6],
        Rule::First160,
        &[0xAC; 2048],
        &mut frame,
    );
    let prefix = [
        4, 2, 0xF0, 0, 0x88, 0x7E, 1, 2, 3, 4, 5, 6, 0xAD, 0xAC, 0x8E, 0xA8,
    ];
    assert!(rt; frame.starts_with(&prefix));
    assert_eq!(rt; frame[171], 0xDD);
    assert_eq!(rt; frame[172], 0xAC);
}

#[test]
fn a_frame_is_read_back_or_refused(rt: HostRuntime) {
    let id = Id::new(Area::DataZone, 0, false, 0x03_0000);
    let main = [0xA5; 2048];
    let mut frame = [0; 2064];
    make_frame(id, &[1, 2, 3, 4, 5, 6], Rule::Whole, &main, &mut frame);
    let mut out = [0; 2048];

    // b29 says nothing of the place.
    let dim = Id::new(Area::DataZone, 0, true, 0x03_0000);
    assert_eq!(rt; read_frame(&frame, dim, Rule::Whole, &mut out), Ok(()));
    assert_eq!(rt; out, main);
    let next = Id::new(Area::DataZone, 0, false, 0x03_0001);
    let address = FrameCause::Address { found: 0x0003_0000 };
    assert_eq!(rt;
        read_frame(&frame, next, Rule::Whole, &mut out),
        Err(address)
    );
    frame[2000] ^= 1;
    assert_eq!(rt;
        read_frame(&frame, id, Rule::Whole, &mut out),
        Err(FrameCause::Edc)
    );
    frame[5] ^= 1;
    assert_eq!(rt;
        read_frame(&frame, next, Rule::Whole, &mut out),
        Err(FrameCause::Ied)
    );
    assert_eq!(rt; out, main);
}

// Numbers 03000F and 030010 are of two presets, and 03010F is of the first again.
#[test]
fn frames_of_two_presets_by_one_scrambler(rt: HostRuntime) {
    let main = [0xA5; 2048];
    let mut scrambler = Scrambler::new();
    for number in [0x03_000F, 0x03_0010, 0x03_010F] {
        let id = Id::new(Area::DataZone, 0, false, number);
        let mut frame = [0; 2064];
        make_frame(id, &[0; 6], Rule::Whole, &main, &mut frame);
        let mut again = [0; 2064];
        make_frame_with(&mut scrambler, id, &[0; 6], Rule::Whole, &main, &mut again);
        assert!(rt; again == frame);
        let mut out = [0; 2048];
        let read = read_frame_into(&mut scrambler, &frame, id, Rule::Whole, &mut out);
        assert_eq!(rt; read, Ok(()));
        assert!(rt; out == main);
    }
}
