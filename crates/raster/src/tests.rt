// Worked values of blends, sources at their edges, and touches.
use crate::*;

const HALF: Cover = Cover { amount: 128 };

fn grey(shade: u8) -> Grey {
    Grey { shade }
}

#[test]
fn greys_blend(rt: HostRuntime) {
    assert_eq!(rt; grey(200).blend(grey(0), HALF), grey(100));
    assert_eq!(rt; grey(100).blend(grey(0), HALF), grey(50));
}

#[test]
fn tints_blend_by_their_parts(rt: HostRuntime) {
    let below = Tint {
        red: 200,
        green: 0,
        blue: 100,
    };
    let above = Tint {
        red: 0,
        green: 0,
        blue: 0,
    };
    assert_eq!(rt;
        below.blend(above, HALF),
        Tint {
            red: 100,
            green: 0,
            blue: 50,
        }
    );
}

#[test]
fn papers_turn_at_half_cover(rt: HostRuntime) {
    assert_eq!(rt;
        Paper::Blank.blend(Paper::Ink, Cover { amount: 127 }),
        Paper::Blank
    );
    assert_eq!(rt; Paper::Blank.blend(Paper::Ink, HALF), Paper::Ink);
}

#[test]
fn shows_where_there_is_room(rt: HostRuntime) {
    let tint = Tint {
        red: 1,
        green: 2,
        blue: 3,
    };
    let mut buffer = [9; 5];
    assert_eq!(rt; tint.show(&mut buffer, 3), Err(Shortage::Buffer));
    assert_eq!(rt; tint.show(&mut buffer, 1), Ok(4));
    assert_eq!(rt; Paper::Ink.show(&mut buffer, 4), Ok(5));
    assert_eq!(rt; buffer, [9, 1, 2, 3, 1]);
}

#[test]
fn bytes_lie_row_after_row(rt: HostRuntime) {
    let greys: Bytes<Grey> = Bytes::new(3, 2, &[10, 11, 12, 20, 21, 22]);
    assert_eq!(rt; greys.look(2, 0), Look::Found(grey(12)));
    assert_eq!(rt; greys.look(0, 1), Look::Found(grey(20)));
    assert_eq!(rt; greys.look(3, 0), Look::Outside);
}

#[test]
fn one_byte_too_few(rt: HostRuntime) {
    assert_eq!(rt;
        Bytes::<Cover>::check(65535, 1, &[0; 65534]),
        Err(Shortage::Samples)
    );
    assert_eq!(rt; Shortage::Samples.number(), 26);
    let none: Bytes<Cover> = Bytes::new(65535, 1, &[0; 65534]);
    assert!(rt; none.width() == 0 && none.height() == 0);
}

#[test]
fn sizes_at_the_edges(rt: HostRuntime) {
    let widest: Bytes<Cover> = Bytes::new(65535, 1, &[128; 65535]);
    assert_eq!(rt; widest.look(65534, 0), Look::Found(HALF));
    let single: Bytes<Cover> = Bytes::new(1, 1, &[128]);
    assert_eq!(rt; single.look(0, 0), Look::Found(HALF));
    let flat: Bytes<Cover> = Bytes::new(0, 5, &[]);
    assert!(rt; flat.width() == 0 && flat.height() == 5);
}

#[test]
fn triples_take_three_bytes(rt: HostRuntime) {
    let tints = Triples::new(1, 2, &[1, 2, 3, 4, 5, 6]);
    assert_eq!(rt;
        tints.look(0, 1),
        Look::Found(Tint {
            red: 4,
            green: 5,
            blue: 6,
        })
    );
    assert_eq!(rt;
        Triples::check(1, 2, &[1, 2, 3, 4, 5]),
        Err(Shortage::Samples)
    );
}

// A row of bits is filled up at a width of 7, just fits at 8, and wants a second byte at 9.
#[test]
fn rows_of_bits_take_whole_bytes(rt: HostRuntime) {
    assert_eq!(rt; Bits::check(7, 4, &[0; 4]), Ok(4));
    assert_eq!(rt; Bits::check(8, 4, &[0; 4]), Ok(4));
    assert_eq!(rt; Bits::check(9, 2, &[0; 4]), Ok(4));
}

#[test]
fn bits_begin_with_the_most_significant(rt: HostRuntime) {
    let mask = Bits::new(9, 2, &[0x80, 0, 0, 0x80]);
    assert_eq!(rt; mask.look(0, 0), Look::Found(full_cover()));
    assert_eq!(rt; mask.look(7, 0), Look::Found(no_cover()));
    assert_eq!(rt; mask.look(8, 1), Look::Found(full_cover()));
}

#[test]
fn arrivals_hide_later_rows(rt: HostRuntime) {
    let image = Arrival::new(
        Uniform {
            width: 2,
            height: 2,
            sample: grey(0),
        },
        1,
    );
    assert_eq!(rt; image.look(1, 0), Look::Found(grey(0)));
    assert_eq!(rt; image.look(1, 1), Look::Missing);
    assert_eq!(rt; image.look(1, 2), Look::Outside);
}

// An object 10 wide from column 4,294,967,290 on, under a mask 2 wide that begins one column further.
#[test]
fn touches_far_right(rt: HostRuntime) {
    let place = Placement {
        lhoff: 4_294_967_290,
        lvoff: 5,
        lwidth: 10,
        lheight: 1,
        mask_across: 1,
        mask_down: 0,
        image_across: 0,
        image_down: 0,
    };
    let mask = Uniform {
        width: 2,
        height: 1,
        sample: HALF,
    };
    let image = Uniform {
        width: 10,
        height: 1,
        sample: grey(7),
    };
    assert_eq!(rt;
        touched(place, &mask, &image, 4_294_967_290, 5),
        Touch::Bare
    );
    assert_eq!(rt;
        touched(place, &mask, &image, 4_294_967_291, 5),
        Touch::Dab(grey(7), HALF)
    );
    let late = Arrival::new(mask, 0);
    assert_eq!(rt;
        touched(place, &late, &image, 4_294_967_292, 5),
        Touch::MaskMissing
    );
}
