//! Texts from the wire: which of them may be shown.

ghost use Rattle.std.specs.Prelude.{◌≡◌, ℕ, List, option_map};
ghost use Rattle.std.specs.Borrow.{Bor};
ghost use Rattle.std.specs.List.{list_any};
ghost use Rattle.std.specs.Str.{chars};
ghost use Rattle.bgp_values.specs.Readable.{is_hidden, text_in};

/// Checks whether a terminal may obey the character: DEL, and U+0080 to U+009F.
fn is_hidden(c: char) -> bool
    ensures { result ≡ is_hidden c }
{
    matches!(c, '\u{7f}'..='\u{9f}')
}

/// Checks whether a character of the text is one that a terminal may obey.
fn has_hidden(text: &str) -> bool
    ensures { result ≡ list_any is_hidden (chars text.now) }
{
    text.chars().any(is_hidden)
}

/// Returns the text that octets are, if it is UTF-8 and has no character that a terminal may obey.
pub fn read_text(octets: &[u8]) -> Option<&str>
    ensures { option_map (λ (text : Bor (List ℕ)). text.now) result ≡ text_in octets.entry.now }
{
    let Ok(text) = str::from_utf8(octets) else {
        return None;
    };
    if has_hidden(text) {
        return None;
    }
    Some(text)
}
