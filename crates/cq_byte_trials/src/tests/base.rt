//! Values from outside, and the calls that want memory, with ample memory.
ghost use Rattle.std.specs.Prelude.{◌≡◌, []};

use cq_base::{
    Cell, CellId, Departure, Departures, Key, MOST_DIGITS, Name, NoMemory, Queued, Room, Sequence,
    Status, Supply, digits,
};
use std::alloc::Global;

// Whether the number has these decimal digits.
fn has_digits(row: &(u128, &str)) -> bool {
    let (number, text) = *row;
    let mut to = [0; MOST_DIGITS];
    let count = digits(number, &mut to);
    &to[..count] == text.as_bytes()
}

const NUMBERS: &[(u128, &str)] = &[
    (0, "0"),
    (9, "9"),
    (10, "10"),
    (u128::MAX, "340282366920938463463374607431768211455"),
];

#[test]
fn numbers_are_written_in_decimal_digits(rt: HostRuntime) {
    for row in NUMBERS {
        assert!(rt; has_digits(row));
    }
}

// A key by its level, its rank, its slot and its input.
type Row = (u8, u128, u64, u16);

fn key(row: &Row) -> Key {
    let (level, rank, slot, input) = *row;
    Key {
        level,
        rank,
        slot,
        input,
    }
}

// Keys, the first of each two before the second.
const RISING: &[(Row, Row)] = &[
    ((0, 9, 9, 9), (1, 0, 9, 9)),
    ((1, 0, 9, 9), (1, 1, 0, 9)),
    ((1, 1, 0, 9), (1, 1, 1, 0)),
    ((1, 1, 1, 0), (1, 1, 1, 1)),
];

fn rise(rows: &(Row, Row)) -> bool {
    key(&rows.0) < key(&rows.1)
}

#[test]
fn keys_rise_by_level_then_rank_then_slot_then_input(rt: HostRuntime) {
    for rows in RISING {
        assert!(rt; rise(rows));
    }
}

const CODES: &[(Status, u8)] = &[
    (Status::Done, 0),
    (Status::Words, 1),
    (Status::Configuration, 2),
    (Status::Capture, 3),
    (Status::Tag, 4),
    (Status::ReadFault, 5),
    (Status::WriteFault, 6),
    (Status::NoMemory, 7),
    (Status::AuditNo, 8),
    (Status::State, 9),
];

fn has_code(row: &(Status, u8)) -> bool {
    row.0.code() == row.1
}

#[test]
fn each_status_has_its_own_code(rt: HostRuntime) {
    for row in CODES {
        assert!(rt; has_code(row));
    }
}

fn name_is_granted(alloc: Global) -> bool {
    match Name::of(alloc, "out0.pcap") {
        Ok(name) => name.text() == "out0.pcap",
        Err(_) => false,
    }
}

#[test]
fn a_name_is_granted_with_ample_memory(rt: HostRuntime) {
    assert!(rt; name_is_granted(rt.alloc()));
}

// Whether a room has space for three items, and keeps two in their order.
fn keeps_two_of_three(room: &mut Room<u64>) -> bool {
    if room.spare() != 3 {
        return false;
    }
    room.push(8);
    room.push(5);
    room.items() == [8, 5].as_slice() && room.spare() == 1
}

// Whether such a room is granted, and gives up what it keeps.
fn room_for_three_is_granted(alloc: Global) -> bool {
    match Room::new(alloc, 3) {
        Ok(mut room) => {
            let keeps_two = keeps_two_of_three(&mut room);
            let items = room.into_vec();
            keeps_two && items.as_slice() == [8, 5].as_slice()
        }
        Err(_) => false,
    }
}

// Whether a room for one item has it again after it was emptied.
fn is_emptied(room: &mut Room<u64>) -> bool
    requires empty { room.old.items ≡ [] }
    requires room { room.old.spare ≡ 1 }
{
    room.push(8);
    room.clear();
    let spare = room.spare();
    room.push(5);
    spare == 1 && room.items() == [5].as_slice()
}

fn room_for_one_is_granted(alloc: Global) -> bool {
    match Room::new(alloc, 1) {
        Ok(mut room) => is_emptied(&mut room),
        Err(_) => false,
    }
}

#[test]
fn rooms_are_granted_with_ample_memory(rt: HostRuntime) {
    assert!(rt; room_for_three_is_granted(rt.alloc()) && room_for_one_is_granted(rt.alloc()));
}

// Whether a sequence has these items, also when it gives them up.
fn has_items(sequence: Sequence<u64>, items: &[u64]) -> bool {
    let has_them = sequence.as_slice() == items;
    let given_up = sequence.into_vec();
    has_them && given_up.as_slice() == items
}

fn sequence_is_its_vector(alloc: Global) -> bool {
    match [8u64, 5].to_vec(alloc) {
        Ok(items) => has_items(Sequence::of(items), &[8, 5]),
        Err(_) => false,
    }
}

#[test]
fn a_sequence_has_the_items_of_its_vector(rt: HostRuntime) {
    assert!(rt; sequence_is_its_vector(rt.alloc()));
}

// A departure in which no two numbers are the same.
fn departure(slot: u64) -> Departure {
    let id = CellId {
        input: 1,
        packet: 2,
        index: 3,
    };
    let cell = Cell {
        id,
        output: 4,
        class: 5,
        last: true,
        at: 6,
        len: 7,
    };
    let key = Key {
        level: 8,
        rank: u128::MAX,
        slot: 9,
        input: 10,
    };
    Departure {
        slot,
        output: 11,
        queued: Queued { cell, key },
    }
}

// A run sends these departures, one in each of two slots.
fn send_both(departures: &mut Departures, sent: &mut Room<Departure>)
    requires slots { departures.old.spare ≡ 2 }
    requires empty { sent.old.items ≡ [] }
    requires room { sent.old.spare ≡ 1 }
{
    sent.push(departure(12));
    departures.take_all(sent);
    sent.push(departure(13));
    departures.take_all(sent);
}

fn departures_of_a_run(alloc: Global) -> Result<Departures, NoMemory> {
    let mut sent = Room::new(alloc, 1)?;
    let mut departures = Departures::new(alloc, 2)?;
    send_both(&mut departures, &mut sent);
    Ok(departures)
}

fn last_of(departures: &Departures) -> Option<Departure> {
    let packed = departures.as_slice().get(1)?;
    Some(packed.departure())
}

// Whether these are what the slots sent, also in a room.
fn are_both(alloc: Global, departures: Departures) -> bool {
    let last = last_of(&departures);
    match departures.into_room(alloc) {
        Ok(room) => {
            last == Some(departure(13)) && room.items() == [departure(12), departure(13)].as_slice()
        }
        Err(_) => false,
    }
}

fn run_sends_both(alloc: Global) -> bool {
    match departures_of_a_run(alloc) {
        Ok(departures) => are_both(alloc, departures),
        Err(_) => false,
    }
}

#[test]
fn departures_of_a_run_are_what_its_slots_sent(rt: HostRuntime) {
    assert!(rt; run_sends_both(rt.alloc()));
}

// The numbers below 10,000.
fn numbers(alloc: Global) -> Result<Vec<u64>, NoMemory> {
    let mut items = Vec::new(alloc);
    for item in 0..10_000u64 {
        items.push(item)?;
    }
    Ok(items)
}

// Whether those numbers are used up in their order.
fn are_used_up(supply: &mut Supply<u64>) -> bool {
    for item in 0..10_000 {
        if supply.pop_first() != Some(item) {
            return false;
        }
    }
    supply.pop_first().is_none()
}

fn supply_is_used_up(alloc: Global) -> bool {
    match numbers(alloc) {
        Ok(numbers) => are_used_up(&mut Supply::of(numbers)),
        Err(_) => false,
    }
}

#[test]
fn a_supply_is_used_up_from_its_front(rt: HostRuntime) {
    assert!(rt; supply_is_used_up(rt.alloc()));
}
