//! The fields of a frame.
ghost use Rattle.std.specs.Prelude.{◌≡◌, ◌≤◌, false, true};
ghost use Rattle.std.specs.Option.{option_map_or};
ghost use Rattle.cq_frame.specs.Frame.{code_point, code_point_at, destination, ether_type, has_tag_at, is_tag, number_at, priority, priority_at};

/// The fields of a frame. One that the frame does not have is `None`.
#[derive(Clone, Copy, Debug, PartialEq, Eq)]
pub struct FrameParts {
    /// The address that the frame goes to: its first six bytes.
    pub dest: Option<[u8; 6]>,
    /// The priority code point of the outermost tag (IEEE 802.1Q): three bits.
    pub pcp: Option<u8>,
    /// The EtherType (IEEE 802.3): the type of what the frame carries. At most two tags before it are
    /// passed over, so behind three it is the type of the third.
    pub ether_type: Option<u16>,
    /// The code point of differentiated services (RFC 2474) of an IPv4 or IPv6 packet: six bits. The
    /// EtherType says which it is; the packet's own version is not looked at.
    pub dscp: Option<u8>,
}

// The two addresses stand before the first type.
const ADDRESSES: usize = 12;

// A tag is a type and a control field, of two bytes each.
const TAG: usize = 4;

const CUSTOMER_TAG: u16 = 0x8100;

const PROVIDER_TAG: u16 = 0x88a8;

const IPV4: u16 = 0x0800;

const IPV6: u16 = 0x86dd;

/// The address that a frame goes to: its first six bytes, or `None` where they are not all there.
#[tactic(auto, unfolding(crate::specs::Frame::destination))]
pub fn destination(bytes: &[u8]) -> Option<[u8; 6]>
    ensures { result ≡ destination bytes.now }
{
    bytes.first_chunk().copied()
}

/// Finds the fields of a frame. It may be any bytes: a field has to stand in it whole, and where the
/// frame ends before, the field is `None`.
#[tactic(auto, unfolding(crate::specs::Frame::priority, crate::specs::Frame::ether_type, crate::specs::Frame::code_point))]
pub fn parts(bytes: &[u8]) -> FrameParts
    ensures dest { result.dest ≡ destination bytes.now }
    ensures pcp { result.pcp ≡ priority bytes.now }
    ensures ether_type { result.ether_type ≡ ether_type bytes.now }
    ensures dscp { result.dscp ≡ code_point bytes.now }
{
    let outer = number_at(bytes, ADDRESSES);
    if !is_tag(outer) {
        return parts_with(bytes, None, ADDRESSES, outer);
    }
    let priority = tag_priority(bytes);
    let inner = number_at(bytes, ADDRESSES + TAG);
    if !is_tag(inner) {
        return parts_with(bytes, priority, ADDRESSES + TAG, inner);
    }
    let at = ADDRESSES + 2 * TAG;
    parts_with(bytes, priority, at, number_at(bytes, at))
}

// The fields of a frame whose outermost tag has this priority. At the offset stands its EtherType, which is given.
fn parts_with(bytes: &[u8], pcp: Option<u8>, at: usize, ether_type: Option<u16>) -> FrameParts
    requires inside { at ≤ 20 }
    requires ether_type { ether_type ≡ number_at bytes.now at }
    ensures { result ≡ record {
      dest = destination bytes.now;
      pcp = pcp;
      ether_type = ether_type;
      dscp = code_point_at bytes.now at;
    } }
{
    FrameParts {
        dest: destination(bytes),
        pcp,
        ether_type,
        dscp: packet_code_point(bytes, at, ether_type),
    }
}

// The number of the two bytes at the offset, if both are there.
fn number_at(bytes: &[u8], at: usize) -> Option<u16>
    requires { at ≤ 20 }
    ensures { result ≡ number_at bytes.now at }
{
    if bytes.len() < at + 2 {
        return None;
    }
    Some(u16::from_be_bytes([bytes[at], bytes[at + 1]]))
}

fn is_tag(kind: Option<u16>) -> bool
    ensures { result ≡ option_map_or is_tag kind false }
{
    matches!(kind, Some(CUSTOMER_TAG | PROVIDER_TAG))
}

// The priority of the tag behind the addresses, if it is there whole.
fn tag_priority(bytes: &[u8]) -> Option<u8>
    requires { has_tag_at bytes.now 12 ≡ true }
    ensures { result ≡ priority_at bytes.now 12 }
{
    if bytes.len() < ADDRESSES + TAG {
        return None;
    }
    Some(bytes[ADDRESSES + 2] >> 5)
}

// The code point of the packet that follows this type at the offset.
fn packet_code_point(bytes: &[u8], at: usize, kind: Option<u16>) -> Option<u8>
    requires inside { at ≤ 20 }
    requires kind { kind ≡ number_at bytes.now at }
    ensures { result ≡ code_point_at bytes.now at }
{
    if bytes.len() < at + 4 {
        return None;
    }
    let services = match kind? {
        IPV4 => bytes[at + 3],
        IPV6 => (bytes[at + 2] & 0x0f) << 4 | bytes[at + 3] >> 4,
        _ => return None,
    };
    Some(services >> 2)
}
