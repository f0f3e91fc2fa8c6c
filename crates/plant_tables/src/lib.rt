//! The tables of a plant file: the keys of each, what stands at them, and how one is refused.
#![tactic(auto)]

mod hex;
mod keys;
mod net;
mod numerals;
mod refusal;
mod routes;
mod tables;

pub use hex::{are_hex_digits, hex_digit};
pub use keys::{
    address_at, discrete_size_at, number_at_key, number_at_or, size_at, table_at, tables_at,
    texts_at, value_at,
};
pub use net::{NetRules, NetTable, Nets, nets_of, network_at, one_of_nets};
pub use numerals::{MOST_TOLD, is_numeral, numeral_within};
pub use refusal::{
    LoadEnd, Refusal, bad_toml, bridge_place, host_table_place, network_place, request_place,
};
pub use routes::{is_route, route_from};
pub use tables::{TableKind, Version, table_passes};
