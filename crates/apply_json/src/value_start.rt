//! The first token of a value: a scalar, `[` or `{`.

ghost use Rattle.std.specs.Prelude.{◌≡◌, ◌≢◌, ◌<◌, length, IfOk, OnErr, OnOk};
ghost use Rattle.json.specs.Reads.{token_of};
ghost use Rattle.json.specs.declared.token.Token.TheVariants.{Bad};
ghost use Rattle.apply_json.specs.Verbatim.{TokenStartsNone, TokenStarts, OpensValue};
ghost use Rattle.apply_json.specs.Tokens.{StartsValue, IsNoValue};

use crate::number::number;
use crate::shallow::Shallow;
use json::{Invalid, Reader, Token};

/// How a value starts.
#[derive(Clone, Copy, Drop)]
pub enum ValueStart<'a> {
    /// The value is a scalar, and it was read to its end.
    Shallow(Shallow<'a>),
    /// `[` was read. The items of the array come next.
    Array,
    /// `{` was read. The members of the object come next.
    Object,
}

/// Reads the start of a value. Arrays and objects in the value may nest at most `depth` deep.
///
/// `Err` means that the next token starts no value, or that a number is out of range. It also comes
/// if an array or object starts at `depth` 0.
#[inline(always)]
pub fn read_start<'a>(reader: &mut Reader<'a>, depth: usize) -> Result<ValueStart<'a>, Invalid>
    ensures ok { IfOk result (λ value_start. StartsValue value_start depth reader.old reader.new) }
    ensures opened { IfOk result (λ value_start. OpensValue value_start depth reader.old reader.new) }
    ensures err { OnErr result (IsNoValue depth reader.old) }
    ensures shorter { OnOk result (length reader.new < length reader.old) }
{
    let token = reader.next().ok_or(Invalid)?;
    start_of_token(token, depth)
}

/// Maps the first token of a value to its start. `Err` as [`read_start`].
#[inline(always)]
pub fn start_of_token<'a>(token: Token<'a>, depth: usize) -> Result<ValueStart<'a>, Invalid>
    ensures ok { IfOk result (λ value_start. TokenStarts value_start depth (token_of token.entry)) }
    ensures err { OnErr result (TokenStartsNone depth (token_of token.entry)) }
    ensures known { OnOk result (token.entry ≢ Bad) }
{
    match token {
        Token::String(text) => Ok(ValueStart::Shallow(Shallow::Text(text))),
        Token::Number(text) => match number(text) {
            Some(number) => Ok(ValueStart::Shallow(Shallow::Number(number))),
            None => Err(Invalid),
        },
        Token::Bool(b) => Ok(ValueStart::Shallow(Shallow::Bool(b))),
        Token::Null => Ok(ValueStart::Shallow(Shallow::Absent)),
        Token::EndObject | Token::EndArray | Token::Key(_) | Token::Bad => Err(Invalid),
        Token::BeginArray => {
            if depth == 0 {
                return Err(Invalid);
            }
            Ok(ValueStart::Array)
        }
        Token::BeginObject => {
            if depth == 0 {
                return Err(Invalid);
            }
            Ok(ValueStart::Object)
        }
    }
}
