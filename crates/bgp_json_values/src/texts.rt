//! Short texts, and members that are one number or one truth value.

ghost use Rattle.std.specs.Prelude.{◌++◌, ◌∷◌, [], ℕ, List, option_map};
ghost use Rattle.std.specs.Borrow.{Bor};
ghost use Rattle.std.specs.Fmt.{decimal};
ghost use Rattle.json.specs.Json.{boolean, string};
ghost use Rattle.json.specs.Tree.{json_tokens};
ghost use Rattle.bgp_prefix.specs.Text.{address_text};
ghost use Rattle.bgp_prefix.specs.declared.address.Address.TheVariants.{V4};
ghost use Rattle.bgp_names.specs.Naming.{name_or};
ghost use Rattle.bgp_json_values.specs.Adding.{Adds};
ghost use Rattle.bgp_json_values.specs.Objects.{members_tokens, number_of};
ghost use Rattle.bgp_json_values.specs.Texts.{address_json, octets_json, prefix_json};

use bgp_prefix::{Address, Prefix};
use json_writer::Writer;
use std::alloc::{AllocError, Allocator};

/// Puts octets in hexadecimal.
pub fn put_octets<A: Allocator + Copy>(
    writer: &mut Writer<A>,
    alloc: A,
    octets: &[u8],
) -> Result<(), AllocError>
    ensures { Adds result writer.old writer.new (json_tokens (octets_json octets.now)) }
{
    writer.hex(octets)
}

/// Puts an address.
pub fn put_address<A: Allocator + Copy>(
    writer: &mut Writer<A>,
    alloc: A,
    address: Address,
) -> Result<(), AllocError>
    ensures { Adds result writer.old writer.new (json_tokens (address_json address)) }
{
    match address {
        Address::V4(number) => writer.ipv4(number),
        Address::V6(number) => writer.ipv6(number),
    }
}

/// Puts a prefix.
#[inline(always)]
pub fn put_prefix<A: Allocator + Copy>(
    writer: &mut Writer<A>,
    alloc: A,
    prefix: Prefix,
) -> Result<(), AllocError>
    ensures { Adds result writer.old writer.new (json_tokens (prefix_json prefix)) }
{
    match prefix.address() {
        Address::V4(address) => writer.ipv4_prefix(address, prefix.length()),
        Address::V6(address) => writer.ipv6_prefix(address, prefix.length()),
    }
}

/// Puts a word and a number.
fn put_numbered<A: Allocator + Copy>(
    writer: &mut Writer<A>,
    alloc: A,
    word: &str,
    number: u64,
) -> Result<(), AllocError>
    ensures { Adds result writer.old writer.new
        (json_tokens (string (word.now ++ decimal number))) }
{
    let text = format!(in alloc; "{word}{number}")?;
    writer.string(text.as_str())
}

/// Puts a name, or the word and the number if there is none.
pub fn put_name<A: Allocator + Copy>(
    writer: &mut Writer<A>,
    alloc: A,
    word: &str,
    number: u64,
    name: Option<&'static str>,
) -> Result<(), AllocError>
    ensures { Adds result writer.old writer.new
        (json_tokens (string (name_or (word.now ++ decimal number)
        (option_map (λ (text : Bor (List ℕ)). text.now) name.entry)))) }
{
    match name {
        Some(name) => writer.string(name),
        None => put_numbered(writer, alloc, word, number),
    }
}

/// Puts a member that is a number.
#[inline(always)]
pub fn put_number<A: Allocator>(
    writer: &mut Writer<A>,
    key: &str,
    number: u64,
) -> Result<(), AllocError>
    ensures { Adds result writer.old writer.new
        (members_tokens ((key.now, number_of number) ∷ [])) }
{
    writer.key(key)?;
    writer.u64(number)
}

/// Puts a member that is a truth value.
#[inline(always)]
pub fn put_truth<A: Allocator>(
    writer: &mut Writer<A>,
    key: &str,
    is_so: bool,
) -> Result<(), AllocError>
    ensures { Adds result writer.old writer.new
        (members_tokens ((key.now, boolean is_so) ∷ [])) }
{
    writer.key(key)?;
    writer.boolean(is_so)
}
