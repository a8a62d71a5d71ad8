//! What objects begin with, and members that are texts.

ghost use Rattle.std.specs.Prelude.{◌∷◌, [], codes};
ghost use Rattle.json.specs.Json.{string};
ghost use Rattle.json.specs.Token as tokens;
ghost use Rattle.bgp_json_values.specs.Adding.{Adds};
ghost use Rattle.bgp_json_values.specs.Objects.{members_tokens};

use bgp_json_values::Writer;
use std::alloc::{AllocError, Allocator};

/// Begins an object that says first what it tells of.
#[inline(always)]
pub fn begin<A: Allocator>(writer: &mut Writer<A>, kind: &str) -> Result<(), AllocError>
    ensures { Adds result writer.old writer.new (tokens.begin_object
        ∷ members_tokens ((codes "type", string kind.now) ∷ [])) }
{
    writer.begin_object()?;
    writer.key("type")?;
    writer.word(kind)
}

/// Puts a member that is a text.
#[inline(always)]
pub fn put_text<A: Allocator>(
    writer: &mut Writer<A>,
    key: &str,
    text: &str,
) -> Result<(), AllocError>
    ensures { Adds result writer.old writer.new (members_tokens ((key.now, string text.now) ∷ [])) }
{
    writer.key(key)?;
    writer.string(text)
}
