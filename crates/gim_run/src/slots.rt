//! The words of names, one in the slot of each row.
ghost use Rattle.std.specs.Prelude.{◌≡◌, ◌<◌, length, slice_index_or};
ghost use Rattle.pm_wide.specs.Types.{bool_type};
ghost use Rattle.gim_ast.specs.Runs.{assign, name_type, word_of_operand, zero_of};
ghost use Rattle.gim_run.specs.Slots.{place_of, env_of, AreSlots};

use crate::indexed::Indexed;
use pm_wide::{IntType, Operand, Wide};

/// The word of a slot, and the `_Bool` 0 where there is none.
fn slot(slots: &[Wide], at: usize) -> Wide
    ensures { result ≡ slice_index_or slots.now at (zero_of bool_type) }
{
    if at < slots.len() {
        slots[at]
    } else {
        Wide::default()
    }
}

/// The word of an operand.
#[tactic(auto, using(crate::proofs::SlotLemmas::read_word))]
pub(crate) fn word(function: &Indexed, slots: &[Wide], operand: Operand) -> Wide
    requires { AreSlots function.now slots.now }
    ensures { result ≡ word_of_operand (env_of function.now.names slots.now) operand }
{
    match operand {
        Operand::Name(version, _) => slot(slots, function.row_place(version)),
        Operand::Const(word) => word,
    }
}

/// The type of a name, and `_Bool` where there is no row.
#[tactic(auto, using(crate::proofs::SlotLemmas::known_type, crate::proofs::SlotLemmas::type_without_row))]
pub(crate) fn type_of_name(function: &Indexed, name: u32) -> IntType
    ensures { result ≡ name_type function.now name }
{
    let names = &function.function().names;
    let at = function.row_place(name);
    if at < names.len() {
        names.at(at).ty
    } else {
        IntType::boolean()
    }
}

/// Writes the word of a name.
#[tactic(auto, using(crate::proofs::SlotLemmas::slot_count, crate::proofs::SlotLemmas::write_slot, crate::proofs::SlotLemmas::still_slots))]
pub(crate) fn put(function: &Indexed, slots: &mut [Wide], name: u32, word: Wide)
    requires slots { AreSlots function.now slots.old }
    requires row { place_of function.now.names name < length function.now.names }
    requires typed { word.ty ≡ name_type function.now name }
    ensures words { env_of function.now.names slots.new ≡ assign name word (env_of function.now.names slots.old) }
    ensures slots { AreSlots function.now slots.new }
{
    slots[function.row_place(name)] = word;
}
