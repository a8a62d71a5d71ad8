//! Values from outside: RFC 4271, 4.3. (Texts of addresses and prefixes are compared by the program
//! `real_captures`.)

mod octets;
mod order;
