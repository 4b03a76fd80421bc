//! Made traffic by values from outside: words by PCG's reference and a program of its own, and what follows from them.
ghost use Rattle.std.specs.Prelude.{◌≡◌, ◌<◌, length, All};

use cq_base::{Class, ClassRow, Kind, NoMemory, Port};
use cq_gen::{Soak, make};
use cq_pcap::PacketRow;
use std::alloc::Global;

// Whether traffic was made, and this is so of it.
fn is_made<F: FnOnce(&Soak) -> bool>(made: Result<Soak, NoMemory>, is_so: F) -> bool
    requires { F.IsAlwaysCallable is_so }
{
    match made {
        Ok(soak) => {
            let so = is_so(&soak);
            drop(soak);
            so
        }
        Err(_) => false,
    }
}

// Where the first two packets of an input go.
fn first_routes(soak: &Soak, input: Port) -> [(Port, Class); 2]
    requires input { input < length soak.now.captures.items }
    requires packets { All (λ packets. length packets ≡ 2) soak.now.captures.items }
{
    let capture = &soak.captures[input as usize];
    let first = soak.tables.route(input, capture.body(0));
    let second = soak.tables.route(input, capture.body(1));
    [first, second]
}

// The first two words of seeds. Those of the seed 0 are the halves of 18195738587432868099, which Rust's crate gives.
const WORDS: &[(u64, [u32; 2])] = &[
    (0, [0x11cd_d903, 0xfc84_3fd7]),
    (1, [0x33a7_0be6, 0x7dbc_f3ee]),
    (u64::MAX, [0x982f_997e, 0x513d_a686]),
];

// Where the packet of a word goes among 61 outputs. That number is odd, so that each bit of the word counts.
fn route_of(word: u32) -> (Port, Class) {
    ((word % 61) as Port, (word >> 29) as Class)
}

// Whether the first packets of the first two inputs are those of these words.
fn begins_with(soak: &Soak, words: &[u32; 2]) -> bool
    requires inputs { length soak.now.captures.items ≡ 61 }
    requires packets { All (λ packets. length packets ≡ 2) soak.now.captures.items }
{
    let [first, _] = first_routes(soak, 0);
    let [second, _] = first_routes(soak, 1);
    first == route_of(words[0]) && second == route_of(words[1])
}

fn has_words(alloc: Global, row: &(u64, [u32; 2])) -> bool {
    let (seed, words) = row;
    match make(alloc, *seed, 61, 2) {
        Ok(soak) => {
            let begins = begins_with(&soak, words);
            drop(soak);
            begins
        }
        Err(_) => false,
    }
}

#[test]
fn the_words_are_those_of_the_generator(rt: HostRuntime) {
    for row in WORDS {
        assert!(rt; has_words(rt.alloc(), row));
    }
}

// Of the words 0, 8, 1, 9 .. of the seed 1: the word modulo 8, and its top three bits.
const ROUTES: [[(Port, Class); 2]; 8] = [
    [(6, 1), (4, 6)],
    [(6, 3), (0, 0)],
    [(1, 6), (3, 3)],
    [(0, 0), (4, 2)],
    [(3, 7), (7, 6)],
    [(0, 1), (2, 0)],
    [(0, 6), (5, 2)],
    [(0, 0), (4, 6)],
];

fn are_routed(soak: &Soak) -> bool
    requires inputs { length soak.now.captures.items ≡ 8 }
    requires packets { All (λ packets. length packets ≡ 2) soak.now.captures.items }
{
    for input in 0..8 {
        if first_routes(soak, input) != ROUTES[input as usize] {
            return false;
        }
    }
    true
}

fn routes_are_told(alloc: Global) -> bool {
    match make(alloc, 1, 8, 2) {
        Ok(soak) => are_routed(&soak),
        Err(_) => false,
    }
}

#[test]
fn a_word_tells_the_output_and_the_class(rt: HostRuntime) {
    assert!(rt; routes_are_told(rt.alloc()));
}

// How the frame of the third word of the seed 7 begins. The word is 0xa388_049d: 1 modulo 3, with the top bits 5.
const HEADER: [u8; 18] = [
    0x02, 0, 0, 0, 0, 1, 0x02, 0, 0, 0, 1, 2, 0x81, 0, 0xa0, 0, 0x88, 0xb5,
];

// Whether the only packet of the last of three inputs is that frame.
fn has_the_frame(soak: &Soak) -> bool {
    let mut frame = [0; 60];
    frame[..18].copy_from_slice(&HEADER);
    match soak.captures.get(2) {
        Some(capture) => capture.rows().len() == 1 && capture.body(0) == frame.as_slice(),
        None => false,
    }
}

#[test]
fn a_frame_has_its_addresses_its_tag_and_zeros(rt: HostRuntime) {
    assert!(rt; is_made(make(rt.alloc(), 7, 3, 1), has_the_frame));
}

const KINDS: [Kind; 4] = [Kind::FirstCome, Kind::Priority, Kind::Fair, Kind::FirstCome];

const LEAST_URGENT: ClassRow = ClassRow {
    level: 0,
    priority: 7,
    cost: 1,
};

const MOST_URGENT: ClassRow = ClassRow {
    level: 0,
    priority: 0,
    cost: 8,
};

fn is_for_four_ports(soak: &Soak) -> bool {
    let tables = &soak.tables;
    let classes = tables.setup.classes.as_slice();
    classes.len() == 8
        && classes[0] == LEAST_URGENT
        && classes[7] == MOST_URGENT
        && tables.setup.kinds.as_slice() == KINDS.as_slice()
        && tables.workers == 2
        && tables.trace.text() == ""
}

#[test]
fn the_switch_has_every_discipline_and_eight_classes(rt: HostRuntime) {
    assert!(rt; is_made(make(rt.alloc(), 9, 4, 1), is_for_four_ports));
}

fn are_longest(rows: &[PacketRow]) -> bool {
    if rows.len() != 20_000 {
        return false;
    }
    let last = rows[19_999];
    (last.stamp, last.original, last.len) == (10_239_488, 60, 60)
}

fn is_longest(soak: &Soak) -> bool {
    match soak.captures.get(0) {
        Some(capture) => are_longest(capture.rows()),
        None => false,
    }
}

#[test]
fn the_longest_traffic_has_twenty_thousand_slots(rt: HostRuntime) {
    assert!(rt; is_made(make(rt.alloc(), u64::MAX, 1, 20_000), is_longest));
}
