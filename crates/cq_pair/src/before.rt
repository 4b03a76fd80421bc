//! Looking for a port from behind.
ghost use Rattle.std.specs.Prelude.{◌≡◌, ◌≤◌, ◌<◌, ◌↔◌, length, nat_eq, IfSome, IsSome};
ghost use Rattle.std.specs.List.{IsDistinct};
ghost use Rattle.cq_prefs.specs.Orders.{place_in};

use cq_base::Port;

/// The place of a port in an order, if it is less than this end. The places nearest to the end are looked at first.
pub fn place_before(order: &[Port], end: usize, port: Port) -> Option<usize>
    requires differ { IsDistinct nat_eq order.now }
    requires inside { end ≤ length order.now }
    ensures found { IsSome result ↔ (place_in order.now port < end) }
    ensures place { IfSome result (λ place. place ≡ place_in order.now port) }
{
    order[..end].iter().rposition(|other| *other == port)
}
