//! The addresses by which a frame goes.
ghost use Rattle.std.specs.Prelude.{◌≡◌};
ghost use Rattle.plant_types.specs.Routes.{FitsRoute, next_and_rest};

use std::marker::Model;

/// The most addresses of a route.
pub const ROUTE_LIMIT: usize = 5;

/// At most five addresses in a fixed array, the next one to go to first: a node, or a bridge and
/// behind it the rest of the route (*Modbus Plus Network Planning and Installation Guide*).
#[derive(Clone, Copy, Debug, PartialEq, Eq)]
pub struct Route {
    items: [u8; ROUTE_LIMIT],
    count: u8,
}

impl Model for Route {
    ghost use Rattle.std.specs.Prelude.{ℕ, List, take, length};

    ghost Value = { List ℕ };

    ghost use Rattle.plant_types.specs.Routes.{route_places, KeepsRoute};

    ghost view = { λ r. take r.count r.items };

    ghost invariant = { λ r. KeepsRoute r.items r.count };

    ghost inverse = { λ addresses. record {
      items = route_places addresses;
      count = length addresses;
    } };
}

impl Route {
    /// Takes no memory.
    pub fn of(addresses: &[u8]) -> Route
        requires { FitsRoute addresses.now }
        ensures { result ≡ addresses.now }
    {
        let mut items = [0; ROUTE_LIMIT];
        items[..addresses.len()].copy_from_slice(addresses);
        Route {
            items,
            count: addresses.len() as u8,
        }
    }

    /// Its addresses, the next one to go to first.
    pub fn addresses(&self) -> &[u8]
        ensures addresses { result.now ≡ self.now }
        ensures fits { FitsRoute self.now }
    {
        &self.items[..usize::from(self.count)]
    }

    /// The next address to go to, and the route from there on; None exactly where it has no address.
    pub fn split_first(&self) -> Option<(u8, Route)>
        ensures { result ≡ next_and_rest self.now }
    {
        match self.addresses() {
            [next, rest @ ..] => Some((*next, Route::of(rest))),
            [] => None,
        }
    }
}
