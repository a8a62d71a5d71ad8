//! The examples of `bgp judge`, from the words of the command line to the text and the status.

use crate::case::{Case, Shows, compare, malformed};
use crate::session::{answer_of, read, read_text};
use std::rt::Files;
use std::{fs, io};

/// The captures that lie in `judge/`, and the status of each. Beside each are its words, one a line
/// with `{}` in the place of the capture, and its text.
static EXAMPLES: [(&str, u8); 13] = [
    ("as-trans.b.mrt", 0),
    ("bird-frr.a.up.mrt", 0),
    ("clean-session.mrt", 0),
    ("cut-opening.mrt", 2),
    ("cut-record.mrt", 3),
    ("early-hold-expiry.mrt", 1),
    ("family-disabled.mrt", 0),
    ("hold-expiry.mrt", 0),
    ("long-update.mrt", 0),
    ("missing-keepalive.mrt", 1),
    ("openbgpd-gobgp.b.mrt", 0),
    ("time-back.mrt", 3),
    ("two-ends.mrt", 0),
];

/// Prints each example that is not so, and then how many there were. Answers whether all are so.
pub(crate) fn compare_examples<R: Files + Print + AllocGlobal>(rt: &R) -> io::Result<bool> {
    let mut all = true;
    for (name, status) in &EXAMPLES {
        all &= compare_example(rt, name, *status)?;
    }
    let count = EXAMPLES.len();
    println!(rt; "judge: {count} examples")?;
    Ok(all)
}

/// Prints an example if it is not so. Answers whether it is.
fn compare_example<R: Files + Print + AllocGlobal>(
    rt: &R,
    name: &str,
    status: u8,
) -> io::Result<bool> {
    let path = format!(in rt.alloc(); "judge/{name}")?;
    let args = read_text(rt, path.as_str(), "args")?;
    // The file comes last.
    let Some(words) = args.as_str().trim_end().strip_suffix("{}") else {
        return Err(malformed());
    };
    let file = fs::read(rt, path.as_str())?;
    let printed = read(rt, path.as_str(), "stdout")?;
    let answer = answer_of(rt.alloc(), status, "", printed.as_slice())?;
    let case = Case {
        name,
        words,
        file: file.as_slice(),
        answer: answer.as_str(),
        shows: Shows::All,
    };
    Ok(compare(rt, &case)?.is_some())
}
