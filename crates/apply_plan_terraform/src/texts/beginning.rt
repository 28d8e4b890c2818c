//! Reads the start of a value, and whole values as JSON text.
//!
//! Every `Err` is `ReadFault::NotJson` when the text is no JSON or nests more than `depth` deep,
//! and `ReadFault::Memory` when memory is refused.

ghost use Rattle.std.specs.Prelude.{◌≡◌, ◌≢◌, ◌<◌, ◌≤◌, ◌-◌, ◌∷◌, length, string_bytes, Err, IfOk, MatchOption, None, OnOk, Some};
ghost use Rattle.json.specs.Json.{Json, members, object, parse_map, value};
ghost use Rattle.json.specs.Print.{IsPrintable};
ghost use Rattle.json.specs.Reads.{token_of};
ghost use Rattle.serde_json.specs.Data.{string};
ghost use Rattle.apply_plan_terraform.specs.Texts.{text_of, with_texts};
ghost use Rattle.apply_plan_terraform.specs.declared.texts.part.Part.{Part};

use crate::texts::copying::{copy, copy_from};
use apply_json::ReadFault;
use json::{Reader, Token, Writer};
use std::alloc::Global;

/// Reads the start of a value. `None` for an object, whose members come next. Any other value is
/// read to its end, and returned as JSON text.
pub fn begin(
    alloc: Global,
    reader: &mut Reader<'_>,
    depth: usize,
) -> Result<Option<String>, ReadFault>
    ensures ok { IfOk result (λ begun. MatchOption begun
        ((0 < depth) × (value depth reader.old
        ≡ parse_map object (members (value (depth - 1)) (length reader.new) reader.new)))
        (λ text. (j : Json) × (value depth reader.old ≡ Some (j, reader.new))
        × ((part : Part) → with_texts part j ≡ string (string_bytes text)))) }
    ensures shorter { OnOk result (length reader.new < length reader.old) }
    ensures err { result ≡ Err ReadFault.NotJson → value depth reader.old ≡ None }
{
    let token = reader.next().ok_or(ReadFault::NotJson)?;
    match token {
        Token::BeginObject => if depth == 0 {
            Err(ReadFault::NotJson)
        } else {
            Ok(None)
        },
        _ => Ok(Some(read_rest_as_text(alloc, token, reader, depth)?)),
    }
}

/// Reads one value as JSON text.
pub fn read_as_text(
    alloc: Global,
    reader: &mut Reader<'_>,
    depth: usize,
) -> Result<String, ReadFault>
    ensures ok { IfOk result (λ text. (j : Json) × (value depth reader.old ≡ Some (j, reader.new))
        × (string_bytes text ≡ text_of j)) }
    ensures shorter { OnOk result (length reader.new < length reader.old) }
    ensures err { result ≡ Err ReadFault.NotJson → value depth reader.old ≡ None }
{
    let mut out = Writer::new(Vec::new(alloc));
    copy(reader, depth, &mut out)?;
    Ok(String::from_utf8(out.into_inner()).unwrap())
}

/// Reads one value as JSON text. `token` is its first token, which was read already.
fn read_rest_as_text(
    alloc: Global,
    token: Token<'_>,
    reader: &mut Reader<'_>,
    depth: usize,
) -> Result<String, ReadFault>
    requires { token ≢ Token.Bad → IsPrintable (token_of token) }
    ensures ok { IfOk result (λ text. (j : Json)
        × (value depth (token_of token.entry ∷ reader.old) ≡ Some (j, reader.new))
        × (string_bytes text ≡ text_of j)) }
    ensures shorter { OnOk result (length reader.new ≤ length reader.old) }
    ensures err { result ≡ Err ReadFault.NotJson
        → value depth (token_of token.entry ∷ reader.old) ≡ None }
{
    let mut out = Writer::new(Vec::new(alloc));
    copy_from(token, reader, depth, &mut out)?;
    Ok(String::from_utf8(out.into_inner()).unwrap())
}
