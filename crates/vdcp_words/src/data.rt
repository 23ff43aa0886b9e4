//! What stands in the data of a framed message.

ghost use Rattle.std.specs.Prelude.{◌≡◌, ◌≢◌, [], ◌∷◌, ◌++◌, length, IfOk, IfErr};
ghost use Rattle.vdcp_value.specs.Bytes.{AreBytes};
ghost use Rattle.vdcp_value.specs.Ids.{id_bytes};

use crate::command::Command;
use crate::fault::WordFault;
use vdcp_value::ClipId;

pub(crate) fn nothing(rest: &[u8], word: Command) -> Result<Command, WordFault>
    ensures read { IfOk result (λ c. (c ≡ word) × (rest.now ≡ [])) }
    ensures length { IfErr result (λ e. (e ≡ WordFault.Length) × (length rest.now ≢ 0)) }
{
    match rest {
        [] => Ok(word),
        [_, ..] => Err(WordFault::Length),
    }
}

pub(crate) fn byte(rest: &[u8]) -> Result<u8, WordFault>
    ensures read { IfOk result (λ b. rest.now ≡ b ∷ []) }
    ensures length { IfErr result (λ e. (e ≡ WordFault.Length) × (length rest.now ≢ 1)) }
{
    match rest {
        [byte] => Ok(*byte),
        _ => Err(WordFault::Length),
    }
}

pub(crate) fn id(rest: &[u8]) -> Result<ClipId, WordFault>
    ensures read { IfOk result (λ id. rest.now ≡ id_bytes id) }
    ensures length { IfErr result (λ e. (e ≡ WordFault.Length) × (length rest.now ≢ 8)) }
{
    let bytes = <[u8; 8]>::try_from(rest).map_err(|_| WordFault::Length)?;
    Ok(ClipId::new(bytes))
}

pub(crate) fn time(rest: &[u8]) -> Result<[u8; 4], WordFault>
    ensures read { IfOk result (λ t. (rest.now ≡ t) × AreBytes 4 t) }
    ensures length { IfErr result (λ e. (e ≡ WordFault.Length) × (length rest.now ≢ 4)) }
{
    <[u8; 4]>::try_from(rest).map_err(|_| WordFault::Length)
}
