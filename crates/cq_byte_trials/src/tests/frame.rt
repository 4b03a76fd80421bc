//! Frames made by hand, byte by byte, with the fields that the standards give them.
use cq_frame::{FrameParts, parts};

const TO: Option<[u8; 6]> = Some([0x02, 0, 0, 0, 0, 0x01]);

// IPv6 behind a provider's tag with priority 5 and a customer's with priority 1.
const TWO_TAGS: [u8; 24] = [
    0x02, 0, 0, 0, 0, 0x01, 0x02, 0, 0, 0, 0, 0xaa, //
    0x88, 0xa8, 0xa0, 0x64, 0x81, 0x00, 0x20, 0x65, 0x86, 0xdd, 0x6b, 0x80,
];

// IPv4 behind three tags.
const THREE_TAGS: [u8; 26] = [
    0x02, 0, 0, 0, 0, 0x01, 0x02, 0, 0, 0, 0, 0xaa, //
    0x88, 0xa8, 0xa0, 0x64, 0x81, 0x00, 0x20, 0x65, 0x81, 0x00, 0x00, 0x66, 0x08, 0x00,
];

// IPv4 behind a customer's tag with priority 3.
const ONE_TAG: [u8; 20] = [
    0x02, 0, 0, 0, 0, 0x01, 0x02, 0, 0, 0, 0, 0xaa, //
    0x81, 0x00, 0x60, 0x05, 0x08, 0x00, 0x45, 0xb8,
];

const IPV4: [u8; 16] = [
    0x02, 0, 0, 0, 0, 0x01, 0x02, 0, 0, 0, 0, 0xaa, 0x08, 0x00, 0x45, 0x28,
];

const IPV6: [u8; 16] = [
    0x02, 0, 0, 0, 0, 0x01, 0x02, 0, 0, 0, 0, 0xaa, 0x86, 0xdd, 0x62, 0x80,
];

const ARP: [u8; 16] = [
    0x02, 0, 0, 0, 0, 0x01, 0x02, 0, 0, 0, 0, 0xaa, 0x08, 0x06, 0x00, 0x01,
];

// A frame, how many of its bytes are there, and what stands in them: the address, the priority, the type and the code
// point.
type Case = (
    &'static [u8],
    usize,
    Option<[u8; 6]>,
    Option<u8>,
    Option<u16>,
    Option<u8>,
);

const CASES: &[Case] = &[
    (&TWO_TAGS, 24, TO, Some(5), Some(34525), Some(46)),
    (&THREE_TAGS, 26, TO, Some(5), Some(0x8100), None),
    (&ONE_TAG, 20, TO, Some(3), Some(0x0800), Some(46)),
    (&IPV4, 16, TO, None, Some(0x0800), Some(10)),
    (&IPV6, 16, TO, None, Some(0x86dd), Some(10)),
    (&ARP, 16, TO, None, Some(0x0806), None),
    (&[0; 13], 13, Some([0; 6]), None, None, None),
    // Each field from the first byte on that ends it.
    (&TWO_TAGS, 5, None, None, None, None),
    (&TWO_TAGS, 6, TO, None, None, None),
    (&TWO_TAGS, 15, TO, None, None, None),
    (&TWO_TAGS, 16, TO, Some(5), None, None),
    (&TWO_TAGS, 21, TO, Some(5), None, None),
    (&TWO_TAGS, 22, TO, Some(5), Some(34525), None),
    (&TWO_TAGS, 23, TO, Some(5), Some(34525), None),
    (&ONE_TAG, 17, TO, Some(3), None, None),
    (&IPV4, 13, TO, None, None, None),
    (&IPV4, 14, TO, None, Some(0x0800), None),
];

fn has_fields(case: &Case) -> bool {
    let (frame, there, dest, pcp, ether_type, dscp) = *case;
    let fields = FrameParts {
        dest,
        pcp,
        ether_type,
        dscp,
    };
    match frame.get(..there) {
        Some(bytes) => parts(bytes) == fields,
        None => false,
    }
}

#[test]
fn a_frame_has_the_fields_that_stand_in_it(rt: HostRuntime) {
    for case in CASES {
        assert!(rt; has_fields(case));
    }
}
