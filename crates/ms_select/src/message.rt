//! Messages: a varint length, a text and a newline.

ghost use Rattle.std.specs.Prelude.{◌≡◌, ◌-◌, ◌<◌, [], ◌∷◌, ◌++◌, IfOk, IfErr};
ghost use Rattle.ms_select.specs.Messages.{IsNoText};

use crate::fault::SelectFault;

/// The largest length of a message, of this project's profile.
pub(crate) const LONGEST: usize = 1024;

pub(crate) const HEADER: &[u8] = b"/multistream/1.0.0";

/// The text that refuses a proposal.
pub(crate) const NA: &[u8] = b"na";

/// The text that asks for a list of protocols, which this project's profile refuses.
pub(crate) const LS: &[u8] = b"ls";

/// The text of a message that has this body.
pub(crate) fn text_of(body: &[u8]) -> Result<&[u8], SelectFault>
    ensures found { IfOk result (λ text. body.now ≡ text.now ++ 10 ∷ []) }
    ensures fault { IfErr result (IsNoText body.now) }
{
    let [text @ .., last] = body else {
        return Err(SelectFault::BadLength);
    };
    if *last != b'\n' {
        return Err(SelectFault::NoNewline);
    }
    Ok(text)
}
