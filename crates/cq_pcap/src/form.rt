//! The forms of captures: in which order the bytes of a number stand, and what a subsecond is.
ghost use Rattle.std.specs.Prelude.{◌≡◌, ◌+◌, ◌≤◌, length};
ghost use Rattle.cq_pcap.specs.Form.{form_at, number_at, unit};

use byteorder::{BigEndian, ByteOrder, LittleEndian};

/// A form of captures. The magic of a file tells it.
#[derive(Clone, Copy, Debug, PartialEq, Eq)]
pub struct Form {
    /// Whether the highest byte of every number of the file comes first.
    pub big: bool,
    /// Whether its subseconds are nanoseconds. Else they are microseconds.
    pub nano: bool,
}

impl Form {
    /// The form of the files that begin with these bytes.
    #[tactic(auto, unfolding(crate::specs::Form::form_at))]
    pub(crate) fn at(bytes: &[u8]) -> Option<Form>
        ensures { result ≡ form_at bytes.now }
    {
        let (big, nano) = match bytes {
            [0xa1, 0xb2, 0xc3, 0xd4, ..] => (true, false),
            [0xd4, 0xc3, 0xb2, 0xa1, ..] => (false, false),
            [0xa1, 0xb2, 0x3c, 0x4d, ..] => (true, true),
            [0x4d, 0x3c, 0xb2, 0xa1, ..] => (false, true),
            _ => return None,
        };
        Some(Form { big, nano })
    }

    /// The number in the two bytes at a place.
    #[tactic(auto, using(std::proofs::lemmas::List::take_rest), unfolding(crate::specs::Form::number_at))]
    pub(crate) fn short(self, bytes: &[u8], at: usize) -> u16
        requires { at + 2 ≤ length bytes.now }
        ensures { result ≡ number_at self.big 2 bytes.now at }
    {
        if self.big {
            BigEndian::read_u16(&bytes[at..])
        } else {
            LittleEndian::read_u16(&bytes[at..])
        }
    }

    /// The number in the four bytes at a place.
    #[tactic(auto, using(std::proofs::lemmas::List::take_rest), unfolding(crate::specs::Form::number_at))]
    pub(crate) fn word(self, bytes: &[u8], at: usize) -> u32
        requires { at + 4 ≤ length bytes.now }
        ensures { result ≡ number_at self.big 4 bytes.now at }
    {
        if self.big {
            BigEndian::read_u32(&bytes[at..])
        } else {
            LittleEndian::read_u32(&bytes[at..])
        }
    }

    /// The nanoseconds of one subsecond.
    pub(crate) fn subsecond(self) -> u64
        ensures { result ≡ unit self.nano }
    {
        if self.nano { 1 } else { 1000 }
    }
}
