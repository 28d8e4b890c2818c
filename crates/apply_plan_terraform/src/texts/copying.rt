//! Copies values token by token, without blanks and with the shortest escapes (RFC 8259).
//!
//! Every `Err` is `ReadFault::NotJson` when the text is no JSON or nests more than `depth` deep,
//! and `ReadFault::Memory` when memory is refused.

ghost use Rattle.std.specs.Prelude.{◌≡◌, ◌≢◌, ◌<◌, ◌≤◌, ◌++◌, ◌∷◌, length, Err, None, OnOk, Some};
ghost use Rattle.json.specs.Json.{Json, Items, Members, items, members, value};
ghost use Rattle.json.specs.Print.{IsPrintable};
ghost use Rattle.json.specs.Reads.{token_of};
ghost use Rattle.json.specs.Tree.{json_tokens, items_tokens, members_tokens};

use apply_json::ReadFault;
use json::{Reader, Token, Writer};

/// Copies one value. Arrays and objects nest at most `depth` deep.
#[cycle(copy)]
pub fn copy(reader: &mut Reader<'_>, depth: usize, out: &mut Writer) -> Result<(), ReadFault>
    ensures ok { OnOk result ((j : Json) × (value depth reader.old ≡ Some (j, reader.new))
        × (out.new.tokens ≡ out.old.tokens ++ json_tokens j)) }
    ensures before { OnOk result (out.new.before ≡ out.old.before) }
    ensures shorter { OnOk result (length reader.new < length reader.old) }
    ensures err { result ≡ Err ReadFault.NotJson → value depth reader.old ≡ None }
{
    let token = reader.next().ok_or(ReadFault::NotJson)?;
    copy_from(token, reader, depth, out)
}

/// Copies one value. `token` is its first token, which was read already.
#[cycle(copy)]
pub fn copy_from(
    token: Token<'_>,
    reader: &mut Reader<'_>,
    depth: usize,
    out: &mut Writer,
) -> Result<(), ReadFault>
    requires { token ≢ Token.Bad → IsPrintable (token_of token) }
    ensures ok { OnOk result ((j : Json)
        × (value depth (token_of token.entry ∷ reader.old) ≡ Some (j, reader.new))
        × (out.new.tokens ≡ out.old.tokens ++ json_tokens j)) }
    ensures before { OnOk result (out.new.before ≡ out.old.before) }
    ensures shorter { OnOk result (length reader.new ≤ length reader.old) }
    ensures err { result ≡ Err ReadFault.NotJson
        → value depth (token_of token.entry ∷ reader.old) ≡ None }
{
    match token {
        Token::String(_) | Token::Number(_) | Token::Bool(_) | Token::Null => {
            out.token(token)?;
            Ok(())
        }
        Token::EndObject | Token::EndArray | Token::Key(_) | Token::Bad => Err(ReadFault::NotJson),
        Token::BeginArray => {
            if depth == 0 {
                return Err(ReadFault::NotJson);
            }
            out.begin_array()?;
            copy_items(reader, depth - 1, out)
        }
        Token::BeginObject => {
            if depth == 0 {
                return Err(ReadFault::NotJson);
            }
            out.begin_object()?;
            copy_members(reader, depth - 1, out)
        }
    }
}

/// Copies the rest of an array, after its opening bracket.
#[cycle(copy)]
fn copy_items(reader: &mut Reader<'_>, depth: usize, out: &mut Writer) -> Result<(), ReadFault>
    ensures ok { OnOk result ((js : Items)
        × (items (value depth) (length reader.old) reader.old ≡ Some (js, reader.new))
        × (out.new.tokens ≡ out.old.tokens ++ items_tokens js)) }
    ensures before { OnOk result (out.new.before ≡ out.old.before) }
    ensures shorter { OnOk result (length reader.new < length reader.old) }
    ensures err { result ≡ Err ReadFault.NotJson
        → items (value depth) (length reader.old) reader.old ≡ None }
{
    'items: while !reader.take_end_array() {
        copy(reader, depth, out)?;
    }
    out.end_array()?;
    Ok(())
}

/// Copies the rest of an object, after its opening bracket.
#[cycle(copy)]
fn copy_members(reader: &mut Reader<'_>, depth: usize, out: &mut Writer) -> Result<(), ReadFault>
    ensures ok { OnOk result ((ms : Members)
        × (members (value depth) (length reader.old) reader.old ≡ Some (ms, reader.new))
        × (out.new.tokens ≡ out.old.tokens ++ members_tokens ms)) }
    ensures before { OnOk result (out.new.before ≡ out.old.before) }
    ensures shorter { OnOk result (length reader.new < length reader.old) }
    ensures err { result ≡ Err ReadFault.NotJson
        → members (value depth) (length reader.old) reader.old ≡ None }
{
    'members: while let Some(name) = reader.next_key()? {
        out.key(name)?;
        copy(reader, depth, out)?;
    }
    out.end_object()?;
    Ok(())
}
