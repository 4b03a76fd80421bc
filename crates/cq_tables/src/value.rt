//! What the values of keys say, kind by kind, or what is wrong with them.
ghost use Rattle.std.specs.Prelude.{◌≡◌, ◌≤◌, ◌<◌, ◌&&◌, IfSome, None, Some, IfOk};
ghost use Rattle.std.specs.Prelude.{IfErr, length, map, option_map};
ghost use Rattle.std.specs.Char.{is_ascii_digit};
ghost use Rattle.std.specs.List.{list_all};
ghost use Rattle.std.specs.Str.{all_ascii_digits};
ghost use Rattle.std.specs.Int.{IsInRange};
ghost use Rattle.cq_tables.specs.Terms.{get_member, view, table_view, number_below, is_from, wide_from, wide_value, address, address_of, address_value, array_of, discipline, discipline_of, elements, file_name, group, hex_digit, integer_in, integer_value, kind_value, natural, text_value, written};

use crate::limits::{ADDRESS_TEXT_BYTES, LONGEST_FILE_NAME};
use crate::refusal::Wrong;
use cq_base::{Kind, MOST_DIGITS};
use toml::{Table, Value};

// An integer that is not below zero.
fn natural(z: i64) -> Option<u64>
    ensures { result ≡ natural z }
{
    u64::try_from(z).ok()
}

/// An integer from the least to the most.
pub fn integer(value: &Value, least: u64, most: u64) -> Result<u64, Wrong>
    ensures held { IfOk result (λ _. integer_in least most (view value.now) ≡ None) }
    ensures value { IfOk result (λ n. n ≡ integer_value (view value.now)) }
    ensures range { IfOk result (λ n. IsInRange least most n) }
    ensures wrong { IfErr result (λ wrong. integer_in least most (view value.now) ≡ Some wrong) }
{
    let Some(z) = value.as_integer() else {
        return Err(Wrong::WrongType);
    };
    match natural(z) {
        Some(n) if least <= n && n <= most => Ok(n),
        _ => Err(Wrong::OutOfRange),
    }
}

// Whether the number is one of those from the least to the most.
fn is_from(least: usize, most: usize, n: usize) -> bool
    ensures { result ≡ is_from least most n }
{
    least <= n && n <= most
}

// Whether each byte is a digit.
fn is_all_digits(text: &str) -> bool
    ensures { result ≡ list_all is_ascii_digit text.now }
{
    text.as_bytes().iter().all(|byte| byte.is_ascii_digit())
}

// Whether the text has 1 to 39 digits and nothing else.
#[tactic(auto, using(crate::proofs::Values::each_is_digit))]
fn is_numeral(text: &str) -> bool
    ensures { result ≡ (is_from 1 39 (length text.now) && all_ascii_digits text.now) }
{
    is_from(1, MOST_DIGITS, text.len()) && is_all_digits(text)
}

/// The number of a port or a class, which is below the count.
pub fn number_below(value: &Value, greatest: u16, count: usize) -> Result<u16, Wrong>
    ensures held { IfOk result (λ _. number_below greatest count (view value.now) ≡ None) }
    ensures value { IfOk result (λ n. n ≡ integer_value (view value.now)) }
    ensures range { IfOk result (λ n. n < count) }
    ensures wrong { IfErr result (λ wrong. number_below greatest count (view value.now) ≡ Some wrong) }
{
    let n = integer(value, 0, u64::from(greatest))? as u16;
    if usize::from(n) < count {
        Ok(n)
    } else {
        Err(Wrong::NoSuchPortOrClass)
    }
}

// The number below 2^128 that 1 to 39 digits write.
#[tactic(auto, using(crate::proofs::Values::parsed_is_written), unfolding(crate::specs::Value::written))]
fn written(text: &str) -> Option<u128>
    ensures { result ≡ written text.now }
{
    if is_numeral(text) {
        text.parse::<u128>().ok()
    } else {
        None
    }
}

/// A wide number from the least one on: an integer, or a text of digits.
pub fn wide(value: &Value, least: u128) -> Result<u128, Wrong>
    ensures held { IfOk result (λ _. wide_from least (view value.now) ≡ None) }
    ensures value { IfOk result (λ n. n ≡ wide_value (view value.now)) }
    ensures range { IfOk result (λ n. least ≤ n) }
    ensures wrong { IfErr result (λ wrong. wide_from least (view value.now) ≡ Some wrong) }
{
    let number = match value.as_integer() {
        Some(z) => natural(z).map(u128::from),
        None => match value.as_str() {
            Some(text) => written(text),
            None => return Err(Wrong::WrongType),
        },
    };
    match number {
        Some(n) if least <= n => Ok(n),
        _ => Err(Wrong::OutOfRange),
    }
}

/// The text of a file name.
pub fn file_name<'a>(value: &'a Value) -> Result<&'a str, Wrong>
    ensures held { IfOk result (λ _. file_name (view value.now) ≡ None) }
    ensures value { IfOk result (λ text. text.now ≡ text_value (view value.now)) }
    ensures wrong { IfErr result (λ wrong. file_name (view value.now) ≡ Some wrong) }
{
    match value.as_str() {
        None => Err(Wrong::WrongType),
        Some(text) if is_from(1, LONGEST_FILE_NAME, text.len()) => Ok(text),
        Some(_) => Err(Wrong::OutOfRange),
    }
}

// The discipline of this name.
#[tactic(auto, unfolding(crate::specs::Value::discipline_of))]
fn discipline_of(name: &str) -> Option<Kind>
    ensures { result ≡ discipline_of name.now }
{
    match name {
        "first-come" => Some(Kind::FirstCome),
        "priority" => Some(Kind::Priority),
        "fair" => Some(Kind::Fair),
        _ => None,
    }
}

/// A discipline, by its name.
pub fn discipline(value: &Value) -> Result<Kind, Wrong>
    ensures held { IfOk result (λ _. discipline (view value.now) ≡ None) }
    ensures value { IfOk result (λ kind. kind ≡ kind_value (view value.now)) }
    ensures wrong { IfErr result (λ wrong. discipline (view value.now) ≡ Some wrong) }
{
    match value.as_str() {
        None => Err(Wrong::WrongType),
        Some(name) => discipline_of(name).ok_or(Wrong::OutOfRange),
    }
}

// The value of a hexadecimal digit, in either case.
#[tactic(auto, using(std::proofs::lemmas::Bool::Decides::nat_tests), unfolding(crate::specs::Value::hex_digit))]
fn hex_digit(byte: u8) -> Option<u8>
    ensures value { result ≡ hex_digit byte }
    ensures range { IfSome result (λ n. n < 16) }
{
    match byte {
        b'0'..=b'9' => Some(byte - b'0'),
        b'A'..=b'F' => Some(byte - b'A' + 10),
        b'a'..=b'f' => Some(byte - b'a' + 10),
        _ => None,
    }
}

// The byte of group k.
#[tactic(auto, using(std::proofs::lemmas::Bool::Decides::nat_tests), unfolding(crate::specs::Value::group))]
fn group(text: &[u8], k: usize) -> Option<u8>
    requires place { k ≤ 5 }
    requires length { length text.now ≡ 17 }
    ensures { result ≡ group text.now k }
{
    if k != 5 && text[3 * k + 2] != b':' {
        return None;
    }
    let high = hex_digit(text[3 * k])?;
    let low = hex_digit(text[3 * k + 1])?;
    Some(16 * high + low)
}

// The address that the text writes, if it is that of one station.
#[tactic(auto, using(std::proofs::lemmas::Bool::Decides::nat_tests), unfolding(crate::specs::Value::address_of))]
fn address_of(text: &[u8]) -> Option<[u8; 6]>
    ensures { result ≡ address_of text.now }
{
    if text.len() != ADDRESS_TEXT_BYTES {
        return None;
    }
    let a = group(text, 0)?;
    let b = group(text, 1)?;
    let c = group(text, 2)?;
    let d = group(text, 3)?;
    let e = group(text, 4)?;
    let f = group(text, 5)?;
    if a % 2 == 0 {
        Some([a, b, c, d, e, f])
    } else {
        None
    }
}

/// The address of one station (IEEE 802).
pub fn address(value: &Value) -> Result<[u8; 6], Wrong>
    ensures held { IfOk result (λ _. address (view value.now) ≡ None) }
    ensures value { IfOk result (λ mac. mac ≡ address_value (view value.now)) }
    ensures wrong { IfErr result (λ wrong. address (view value.now) ≡ Some wrong) }
{
    match value.as_str() {
        None => Err(Wrong::WrongType),
        Some(text) => address_of(text.as_bytes()).ok_or(Wrong::BadAddress),
    }
}

/// The elements of an array of so many.
#[tactic(auto, using(crate::proofs::Values::elements_steps))]
pub fn elements<'a>(value: &'a Value, least: usize, most: usize) -> Result<&'a [Value], Wrong>
    ensures held { IfOk result (λ _. array_of least most (view value.now) ≡ None) }
    ensures value { IfOk result (λ items. map view items.now ≡ elements (view value.now)) }
    ensures range { IfOk result (λ items. IsInRange least most (length items.now)) }
    ensures wrong { IfErr result (λ wrong. array_of least most (view value.now) ≡ Some wrong) }
{
    match value.as_array() {
        None => Err(Wrong::WrongType),
        Some(items) if is_from(least, most, items.len()) => Ok(items.as_slice()),
        Some(_) => Err(Wrong::OutOfRange),
    }
}

/// The value at a key.
#[tactic(auto, using(toml::proofs::Views::table_get))]
pub fn value_at<'a>(table: &'a Table, key: &str) -> Option<&'a Value>
    ensures { option_map (λ value. view value.now) result ≡ get_member key.now (table_view table.now) }
{
    table.get(key)
}
