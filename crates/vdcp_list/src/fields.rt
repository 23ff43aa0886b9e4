//! The fields of a row, and what they name.
ghost use Rattle.std.specs.Prelude.{◌≡◌, ◌≢◌, IfNone, IfSome, Some, option_copied, slice_get};
ghost use Rattle.csv.specs.Records.{fields_of};
ghost use Rattle.vdcp_list.specs.Rows.{HasId};
ghost use Rattle.vdcp_list.specs.Values.{FieldLaws};
ghost use Rattle.vdcp_value.specs.Ids.{text_of_id};
ghost use Rattle.vdcp_value.specs.Timecodes.{rate_of, text_of};
ghost use Rattle.vdcp_value.specs.declared.clip_id.ClipId.{ClipId};
ghost use Rattle.vdcp_value.specs.declared.timecode.Timecode.{Timecode};

use csv::ByteRecord;
use vdcp_value::laws::{
    a_refused_text_is_no_ids, a_text_is_of_one_id, a_text_says_its_id,
    a_time_code_has_lawful_bytes, a_time_code_is_one, an_id_has_one_text,
    lawful_bytes_are_a_time_codes, the_text_of_a_time_code_is_eleven_bytes,
};
use vdcp_value::{ClipId, Rate, Timecode};

pub(crate) fn field_at(row: &ByteRecord, place: usize) -> Option<&[u8]>
    ensures { option_copied result ≡ slice_get (fields_of row.now) place }
{
    row.get(place)
}

pub(crate) fn first_id(row: &ByteRecord) -> Option<ClipId>
    ensures some { IfSome result (λ id. slice_get (fields_of row.now) 0 ≡ Some (text_of_id id)) }
    ensures none { IfNone result (¬ HasId (fields_of row.now)) }
{
    an_id_has_one_text();
    a_refused_text_is_no_ids();
    let Some(field) = field_at(row, 0) else {
        return None;
    };
    match ClipId::parse_ascii(field) {
        Ok(id) => Some(id),
        Err(_) => None,
    }
}

pub(crate) fn id_text(row: &ByteRecord) -> &[u8]
    requires { HasId (fields_of row.now) }
    ensures { slice_get (fields_of row.now) 0 ≡ Some result.now }
{
    field_at(row, 0).unwrap()
}

pub(crate) fn time_in(field: &[u8], rate: Rate) -> Option<Timecode>
    ensures same_rate { IfSome result (λ time. rate_of time ≡ rate) }
    ensures some { IfSome result (λ time. field.now ≡ text_of time) }
    ensures none { IfNone result ((time : Timecode) → rate_of time ≡ rate → field.now ≢ text_of time) }
{
    match Timecode::parse_ascii(rate, field) {
        Ok(time) => Some(time),
        Err(_) => None,
    }
}

pub(crate) fn fields_say_values()
    ensures { FieldLaws }
{
    a_text_is_of_one_id();
    a_text_says_its_id();
    an_id_has_one_text();
    a_time_code_has_lawful_bytes();
    lawful_bytes_are_a_time_codes();
    a_time_code_is_one();
    the_text_of_a_time_code_is_eleven_bytes();
}
