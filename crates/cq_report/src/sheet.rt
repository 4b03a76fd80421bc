//! Lines that are gathered, and put behind a text many at once.
ghost use Rattle.std.specs.Prelude.{◌≡◌, ◌+◌, ◌-◌, ◌*◌, ◌/◌, ◌%◌, ◌<◌, ◌≤◌, ◌∷◌, ◌++◌, [], OnOk, length, take};
ghost use Rattle.cq_base.specs.Decimal.{decimal};
ghost use Rattle.cq_base.specs.Texts.{line_of, log_line, trace_line};
ghost use Rattle.cq_report.specs.Sheet.{IsPut};

use crate::numerals::Numerals;
use cq_base::{Departure, NoMemory, Port, Transfer};
use std::marker::Model;

// The bytes that are gathered at most.
const SHEET: usize = 4096;

// The most bytes of a line of six numbers, each of 20 digits and a byte behind them, and four that its last number may
// spoil behind it.
const LINE: usize = 6 * 21 + 4;

/// Lines that are not behind the text yet. Contracts see their bytes.
#[derive(Drop)]
pub struct Sheet {
    numerals: Numerals,
    bytes: [u8; SHEET],
    end: usize,
}

impl Model for Sheet {
    ghost use Rattle.std.specs.Prelude.{◌≡◌, ℕ, ◌≤◌, List, length, take};

    ghost Value = { List ℕ };

    ghost view = { λ s. take s.end s.bytes };

    ghost invariant = { λ s. (length s.bytes ≡ 4096) × (s.end ≤ 4096) };
}

impl Sheet {
    /// No line.
    pub fn new() -> Sheet
        ensures { result ≡ [] }
    {
        Sheet {
            numerals: Numerals::new(),
            bytes: [0; SHEET],
            end: 0,
        }
    }

    /// Puts what is gathered behind the text. The error is want of memory.
    pub fn hand_over(&mut self, text: &mut Vec<u8>) -> Result<(), NoMemory>
        ensures text { OnOk result (text.new.items ≡ text.old.items ++ self.old) }
        ensures gone { OnOk result (self.new ≡ []) }
    {
        text.extend_from_slice(&self.bytes[..self.end])?;
        self.end = 0;
        Ok(())
    }

    // Hands over what is gathered where there is no room for one more line.
    fn make_room(&mut self, text: &mut Vec<u8>) -> Result<(), NoMemory>
        ensures text { OnOk result (text.new.items ++ self.new ≡ text.old.items ++ self.old) }
        ensures room { OnOk result (length self.new + 130 ≤ 4096) }
    {
        if self.end <= SHEET - LINE {
            return Ok(());
        }
        self.hand_over(text)
    }

    /// One line more of the trace. The error is want of memory.
    pub fn put_departure(
        &mut self,
        text: &mut Vec<u8>,
        departure: &Departure,
    ) -> Result<(), NoMemory>
        ensures { OnOk result (text.new.items ++ self.new ≡ (text.old.items ++ self.old) ++ trace_line departure.now) }
    {
        self.make_room(text)?;
        let numerals = &self.numerals;
        let bytes = &mut self.bytes;
        let id = departure.queued.cell.id;
        let slot = put_number(bytes, self.end, numerals, departure.slot);
        let output = put_number(bytes, slot, numerals, u64::from(departure.output));
        self.end = put_cell(bytes, output, numerals, id.input, id.packet, id.index);
        Ok(())
    }

    /// One line more of the log. The error is want of memory.
    pub fn put_transfer(&mut self, text: &mut Vec<u8>, transfer: &Transfer) -> Result<(), NoMemory>
        ensures { OnOk result (text.new.items ++ self.new ≡ (text.old.items ++ self.old) ++ log_line transfer.now) }
    {
        self.make_room(text)?;
        let numerals = &self.numerals;
        let bytes = &mut self.bytes;
        let id = transfer.id;
        let slot = put_number(bytes, self.end, numerals, transfer.slot);
        let phase = put_number(bytes, slot, numerals, u64::from(transfer.phase));
        let input = put_number(bytes, phase, numerals, u64::from(transfer.input));
        self.end = put_cell(bytes, input, numerals, transfer.output, id.packet, id.index);
        Ok(())
    }
}

// The three numbers at the end of a line, a port and the packet and the number of a cell, and the line feed.
#[inline(always)]
#[tactic(auto, using(crate::proofs::Hundreds::line_feed_behind, crate::proofs::OneMore::word_then))]
fn put_cell(
    bytes: &mut [u8; SHEET],
    at: usize,
    numerals: &Numerals,
    port: Port,
    packet: u32,
    index: u32,
) -> usize
    requires { at + 67 ≤ 4096 }
    ensures text { take result bytes.new ≡ take at bytes.old ++ line_of (port ∷ packet ∷ index ∷ []) }
    ensures most { result ≤ 4096 }
    ensures long { length bytes.new ≡ 4096 }
{
    let port_end = put_number(bytes, at, numerals, u64::from(port));
    let packet_end = put_number(bytes, port_end, numerals, u64::from(packet));
    let end = put_number(bytes, packet_end, numerals, u64::from(index));
    bytes[end - 1] = b'\n';
    end
}

// Writes a number from a place on and a blank behind it, and answers the place behind that. What stands before stays.
#[inline(always)]
#[tactic(auto, using(crate::proofs::Hundreds::few_digits, crate::proofs::Hundreds::some_digit))]
fn put_number(bytes: &mut [u8; SHEET], at: usize, numerals: &Numerals, number: u64) -> usize
    requires { at + 25 ≤ 4096 }
    ensures { IsPut number at bytes.old bytes.new result }
{
    if number < 1000 {
        return put_short(bytes, at, numerals, number);
    }
    if number < 100_000 {
        return put_middle(bytes, at, numerals, number);
    }
    put_long(bytes, at, numerals, number)
}

// A number below a thousand: all four bytes of its numeral are copied, and what comes next is written over those that
// say nothing.
#[inline(always)]
fn put_short(bytes: &mut [u8; SHEET], at: usize, numerals: &Numerals, number: u64) -> usize
    requires short { number < 1000 }
    requires room { at + 4 ≤ 4096 }
    ensures text { take result bytes.new ≡ take at bytes.old ++ (decimal number ++ 32 ∷ []) }
    ensures end { result ≡ at + length (decimal number) + 1 }
    ensures long { length bytes.new ≡ 4096 }
{
    let numeral = numerals.of(number as usize);
    bytes[at] = numeral.first;
    bytes[at + 1] = numeral.second;
    bytes[at + 2] = numeral.third;
    bytes[at + 3] = numeral.fourth;
    at + numeral.long as usize
}

// The hundreds, which have a numeral, and then the last two digits.
#[inline(always)]
#[tactic(auto, using(crate::proofs::Hundreds::two_longer))]
fn put_middle(bytes: &mut [u8; SHEET], at: usize, numerals: &Numerals, number: u64) -> usize
    requires more { 100 ≤ number }
    requires few { number < 100000 }
    requires room { at + length (decimal number) + 4 ≤ 4096 }
    ensures text { take result bytes.new ≡ take at bytes.old ++ (decimal number ++ 32 ∷ []) }
    ensures end { result ≡ at + length (decimal number) + 1 }
    ensures long { length bytes.new ≡ 4096 }
{
    let behind = put_short(bytes, at, numerals, number / 100);
    put_pair(bytes, behind, number % 100)
}

// The same for any number, by its hundreds and their hundreds.
#[tactic(auto, using(crate::proofs::Hundreds::two_longer))]
fn put_long(bytes: &mut [u8; SHEET], at: usize, numerals: &Numerals, number: u64) -> usize
    requires room { at + length (decimal number) + 4 ≤ 4096 }
    ensures text { take result bytes.new ≡ take at bytes.old ++ (decimal number ++ 32 ∷ []) }
    ensures end { result ≡ at + length (decimal number) + 1 }
    ensures long { length bytes.new ≡ 4096 }
{
    if number < 1000 {
        return put_short(bytes, at, numerals, number);
    }
    let behind = put_long(bytes, at, numerals, number / 100);
    put_pair(bytes, behind, number % 100)
}

// Two digits more in place of the blank that stands before a place, and a blank behind them.
#[inline(always)]
fn put_pair(bytes: &mut [u8; SHEET], behind: usize, pair: u64) -> usize
    requires pair { pair < 100 }
    requires some { 1 ≤ behind }
    requires room { behind + 2 ≤ 4096 }
    ensures text { take result bytes.new
        ≡ take (behind - 1) bytes.old ++ (48 + pair / 10) ∷ (48 + pair % 10) ∷ 32 ∷ [] }
    ensures end { result ≡ behind + 2 }
    ensures long { length bytes.new ≡ 4096 }
{
    bytes[behind - 1] = b'0' + (pair / 10) as u8;
    bytes[behind] = b'0' + (pair % 10) as u8;
    bytes[behind + 1] = b' ';
    behind + 2
}
