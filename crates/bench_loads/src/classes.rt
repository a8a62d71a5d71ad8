//! The path attributes of a field, split and classed.

use bgp_attr::{AttrVerdict, Attrs, Side, class};
use std::rt::Files;
use std::{fs, io};

/// Reads a file as one field of attributes, with AS numbers of four octets, and prints how many are
/// of each class, those without a class aside. Answers whether nothing is left after them.
pub(crate) fn print_classes<R: Files + Print + AllocGlobal>(
    rt: &R,
    name: &str,
) -> io::Result<bool> {
    let field = fs::read(rt, name)?;
    let side = Side {
        as4: true,
        internal: false,
    };
    let mut counts = [0u64; 4];
    for attr in Attrs::new(&field) {
        let place = match class(side, &attr) {
            None => continue,
            Some(AttrVerdict::Good) => 0,
            Some(AttrVerdict::Discard) => 1,
            Some(AttrVerdict::Withdraw) => 2,
            Some(AttrVerdict::Reset) => 3,
        };
        counts[place] = counts[place].saturating_add(1);
    }
    let [good, discard, withdraw, reset] = counts;
    println!(rt; "good {good}, discard {discard}, withdraw {withdraw}, reset {reset}")?;
    Ok(Attrs::new(&field).tail().is_none())
}
