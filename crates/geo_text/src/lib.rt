//! Text that grows by one part behind the other. Contracts see a [`Text`] as the list of its bytes.
//!
//! Each call that answers Ok adds just its part: bytes ([`Text::add`]), numbers in decimal ([`Text::add_number`],
//! [`Text::add_wide`]), hexadecimal digits ([`Text::add_hex`]). [`Text::into_block`] moves the bytes out, so that
//! they aren't copied. [`hex_digit`] is one digit.
//!
//! All that the program prints is made by it: geo_gen, geo_report, geo_shown, geo_verify and geo_run use it.
#![tactic(auto)]

mod text;

pub use text::{Text, hex_digit};
