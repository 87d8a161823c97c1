use fingerprint::{CountWord, FactSlot, Fingerprint, Sha1Print, SumPrint};
use std::alloc::AllocError;

const ABC: [u8; 20] = [
    0xa9, 0x99, 0x3e, 0x36, 0x47, 0x06, 0x81, 0x6a, 0xba, 0x3e, 0x25, 0x71, 0x78, 0x50, 0xc2, 0x6c,
    0x9c, 0xd0, 0xd8, 0x9d,
];

const EMPTY: [u8; 20] = [
    0xda, 0x39, 0xa3, 0xee, 0x5e, 0x6b, 0x4b, 0x0d, 0x32, 0x55, 0xbf, 0xef, 0x95, 0x60, 0x18, 0x90,
    0xaf, 0xd8, 0x07, 0x09,
];

const TWO_BLOCKS: [u8; 20] = [
    0x84, 0x98, 0x3e, 0x44, 0x1c, 0x3b, 0xd2, 0x6e, 0xba, 0xae, 0x4a, 0xa1, 0xf9, 0x51, 0x29, 0xe5,
    0xe5, 0x46, 0x70, 0xf1,
];

const PAGE_OF_ZEROS: [u8; 20] = [
    0x1c, 0xea, 0xf7, 0x3d, 0xf4, 0x0e, 0x53, 0x1d, 0xf3, 0xbf, 0xb2, 0x6b, 0x4f, 0xb7, 0xcd, 0x95,
    0xfb, 0x7b, 0xff, 0x1d,
];

const SUM_OF_76500: [u8; 20] = [
    0x00, 0x01, 0x2a, 0xd4, 0, 0, 0, 0, 0, 0, 0, 0, 0, 0, 0, 0, 0, 0, 0, 0,
];

fn gives<F: Fingerprint>(fingerprint: &F, bytes: &[u8], print: &[u8; 20]) -> bool {
    fingerprint.of(bytes) == *print
}

// The first three are the standard's own examples.
#[test]
fn prints(rt: HostRuntime) -> Result<(), AllocError> {
    let long = b"abcdbcdecdefdefgefghfghighijhijkijkljklmklmnlmnomnopnopq";
    let zeros = vec![in rt.alloc(); 0u8; 4096]?;
    assert!(rt; gives(&Sha1Print, b"abc", &ABC));
    assert!(rt; gives(&Sha1Print, b"", &EMPTY));
    assert!(rt; gives(&Sha1Print, long, &TWO_BLOCKS));
    assert!(rt; gives(&Sha1Print, &zeros, &PAGE_OF_ZEROS));
    assert!(rt; gives(&SumPrint, &[255; 300], &SUM_OF_76500));
    Ok(())
}

#[test]
fn counts_and_slots(rt: HostRuntime) {
    let count = CountWord::of_word(0x0000_0002_0000_0001);
    assert_eq!(rt; count, CountWord { rfc: 2, uc: 1 });
    assert_eq!(rt; count.raised(), CountWord { rfc: 2, uc: 2 });
    assert_eq!(rt; count.up(), CountWord { rfc: 3, uc: 0 });
    assert_eq!(rt; count.down(), CountWord { rfc: 1, uc: 0 });
    let slot = FactSlot {
        page: 9,
        print: ABC,
        count,
        next: 66,
    };
    let mut words = [
        9,
        0xa999_3e36_4706_816a,
        0xba3e_2571_7850_c26c,
        0x9cd0_d89d,
        0x0000_0002_0000_0001,
        66,
        0,
        0,
    ];
    assert_eq!(rt; slot.words(), words);
    words[3] = 0x7777_7777_9cd0_d89d;
    words[6] = 1;
    assert_eq!(rt; FactSlot::of_words(&words), slot);
}
