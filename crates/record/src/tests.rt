use crate::*;

// Published CRC-32 values.
#[test]
fn published_checksums(rt: HostRuntime) {
    assert_eq!(rt; crc32(b"123456789"), 0xcbf4_3926);
    assert_eq!(rt; crc32(b""), 0);
    assert_eq!(rt; crc32(b"a"), 0xe8b7_be43);
    assert_eq!(rt; crc32(&[0x00; 32]), 0x190a_55ad);
    assert_eq!(rt; crc32(&[0xff; 32]), 0xff6c_ab0b);
    let ascending = [
        0, 1, 2, 3, 4, 5, 6, 7, 8, 9, 10, 11, 12, 13, 14, 15, 16, 17, 18, 19, 20, 21, 22, 23, 24,
        25, 26, 27, 28, 29, 30, 31,
    ];
    assert_eq!(rt; crc32(&ascending), 0x9126_7e8a);
}

// Record 11 of series 2, reserved up to 299, as it lies in sector 1 of 10.
const WRITTEN: [u8; 32] = [
    1, 2, 0, 0, 11, 0, 0, 0, 0, 0, 0, 0, 44, 1, 0, 0, 0, 0, 0, 0, 0, 0, 0, 0, 0, 0, 0, 0, 189, 90,
    40, 223,
];

const FORMAT: Format = Format {
    tag: 1,
    top: Rank(999_999_998),
    sectors: 10,
};

fn eleventh() -> Record {
    Record {
        series: 2,
        sequence: Sequence(11),
        end: Rank(300),
    }
}

#[test]
fn bytes_by_hand(rt: HostRuntime) {
    assert_eq!(rt; encode(1, eleventh()), WRITTEN);
    assert_eq!(rt; classify(FORMAT, 1, &WRITTEN), Content::Record(eleventh()));
}

// A wrong place, tag, top or series is foreign; a changed byte is blank.
#[test]
fn foreign_and_blank(rt: HostRuntime) {
    assert_eq!(rt; classify(FORMAT, 2, &WRITTEN), Content::Foreign);
    assert_eq!(rt;
        classify(Format { tag: 2, ..FORMAT }, 1, &WRITTEN),
        Content::Foreign
    );
    assert_eq!(rt;
        classify(
            Format {
                top: Rank(298),
                ..FORMAT
            },
            1,
            &WRITTEN,
        ),
        Content::Foreign
    );
    assert_eq!(rt;
        classify(
            Format {
                top: Rank(299),
                ..FORMAT
            },
            1,
            &WRITTEN,
        ),
        Content::Record(eleventh())
    );
    let ninth = Record {
        series: 8,
        ..eleventh()
    };
    assert_eq!(rt; classify(FORMAT, 1, &encode(1, ninth)), Content::Foreign);
    let mut spare = WRITTEN;
    spare[27] = 1;
    spare[28] = 43;
    spare[29] = 106;
    spare[30] = 47;
    spare[31] = 168;
    assert_eq!(rt; classify(FORMAT, 1, &spare), Content::Foreign);
    let mut torn = WRITTEN;
    torn[12] = 45;
    assert_eq!(rt; classify(FORMAT, 1, &torn), Content::Blank);
    assert_eq!(rt; classify(FORMAT, 0, &cleared()), Content::Blank);
}
