//! Laws of the definitions in `specs/`: each function is there for its contract, which is the law.

ghost use Rattle.std.specs.Prelude.{◌≡◌, ◌⊎◌, ◌++◌, ◌∷◌, [], IsTrue, List, Option, false, option_map, true, ℕ};
ghost use Rattle.vdcp_list.specs.Asrun.{IsUnlawful, are_lawful};
ghost use Rattle.vdcp_list.specs.Catalogues.{IsCatalogue, IsCatalogueFault};
ghost use Rattle.vdcp_list.specs.Playlists.{IsListOf, IsPlaylist, IsPlaylistFault};
ghost use Rattle.vdcp_list.specs.Reading.{IsFront, IsReadFault, TakesRow};
ghost use Rattle.vdcp_list.specs.Rows.{AreRowsOf, FileRow, HasRows, rows_of};
ghost use Rattle.vdcp_list.specs.declared.faults.ListFault.{ListFault};
ghost use Rattle.vdcp_value.specs.declared.clip_id.ClipId.{ClipId};
ghost use Rattle.vdcp_value.specs.declared.part.Item.{Item};
ghost use Rattle.vdcp_value.specs.declared.rate.Rate.{Rate};
ghost use Rattle.vdcp_value.specs.declared.timecode.Timecode.{Timecode};

use crate::fields::fields_say_values;
use vdcp_value::laws::an_id_is_its_bytes;

#[tactic(auto, using(crate::proofs::Steps::front_all, crate::proofs::Steps::front_begins, crate::proofs::Steps::front_first, crate::proofs::Steps::front_next))]
pub fn rows_are_read_in_order()
    ensures none { (all : Option (List FileRow)) → IsFront all all [] }
    ensures more { (all left left' : Option (List FileRow)) (front : List FileRow) (row : FileRow) →
        IsFront all left front → TakesRow left left' true row → IsFront all left' (front ++ row ∷ []) }
    ensures all { (file : Option (List ℕ)) (left left' : Option (List FileRow)) (front : List FileRow) (row : FileRow) →
        IsFront (option_map rows_of file) left front → TakesRow left left' false row → AreRowsOf file front }
    ensures begins { (file : Option (List ℕ)) (left : Option (List FileRow)) (front : List FileRow) →
        IsFront (option_map rows_of file) left front → HasRows file
        (λ rows. (more : List FileRow) × (rows ≡ front ++ more)) }
{}

/// No event of a playlist that was read at a rate is one that `write_asrun` refuses at it.
pub fn what_is_read_can_be_written()
    ensures lawful { (rate : Rate) (rows : List FileRow) (items : List Item) → IsPlaylist rate rows items
        → IsTrue (are_lawful rate items) }
    ensures none { (rate : Rate) (file : Option (List ℕ)) (items : List Item) → IsListOf rate file items →
        (reported k : ℕ) → ¬ IsUnlawful rate items reported k }
{}

/// Rows are a playlist of one list or have one fault. They don't say whether the reader or memory fails.
pub fn rows_have_one_reading()
    ensures one_of_both { (rate : Rate) (rows : List FileRow) → ((items : List Item) × IsPlaylist rate rows items)
        ⊎ ((fault : ListFault) × IsPlaylistFault rate rows fault × ¬ IsReadFault fault) }
    ensures one_list { (rate : Rate) (rows : List FileRow) (a b : List Item) → IsPlaylist rate rows a
        → IsPlaylist rate rows b → a ≡ b }
    ensures one_fault { (rate : Rate) (rows : List FileRow) (a b : ListFault) → IsPlaylistFault rate rows a
        → IsPlaylistFault rate rows b →
        ¬ IsReadFault a → ¬ IsReadFault b → a ≡ b }
    ensures not_both { (rate : Rate) (rows : List FileRow) (items : List Item) (fault : ListFault)
        → IsPlaylist rate rows items →
        IsPlaylistFault rate rows fault → IsReadFault fault }
{
    fields_say_values();
}

pub fn rows_are_a_catalogue_or_have_a_fault()
    ensures { (rate : Rate) (rows : List FileRow) → ((clips : List (ClipId × Timecode)) × IsCatalogue rate rows clips)
        ⊎ ((fault : ListFault) × IsCatalogueFault rate rows fault × ¬ IsReadFault fault) }
{
    fields_say_values();
    an_id_is_its_bytes();
}
