//! The value of the member `resource_key`.

ghost use Rattle.apply_text.specs.Objects.{key_data};
ghost use Rattle.apply_text.specs.Sending.{Sends, data_tokens};

use apply_model::Key;
use json::Writer;
use std::alloc::AllocError;

/// Writes an instance key: a number, a string, or `null` when there is no key.
pub fn put_key(out: &mut Writer, key: &Key) -> Result<(), AllocError>
    ensures { Sends result out.old out.new (data_tokens (key_data key.now)) }
{
    match key {
        Key::None => out.null(),
        Key::Number(number) => out.i64(*number),
        Key::Name(name) => out.string(name.as_str()),
    }
}
