//! The words of names at the start of a run.
ghost use Rattle.std.specs.Prelude.{◌≡◌, length, map};
ghost use Rattle.gim_ast.specs.Runs.{argument_of, start_word};

use gim_ast::{Decl, Function, NameRow};
use pm_ops::Text;
use pm_wide::Wide;

/// The argument at the place of the parameter of an identifier.
#[tactic(auto, using(crate::proofs::StartLemmas::argument_past, crate::proofs::StartLemmas::argument_here, crate::proofs::StartLemmas::argument_on))]
fn argument(ident: &Text, params: &[Decl], args: &[Wide]) -> Option<Wide>
    ensures { result ≡ argument_of ident.now params.now args.now }
{
    for at in 0..params.len() {
        if at >= args.len() {
            return None;
        }
        if params[at].ident == *ident {
            return Some(args[at]);
        }
    }
    None
}

/// The word of a row at the start: an argument where it is a default definition, and else the 0 of its type.
fn first_word(function: &Function, args: &[Wide], row: &NameRow) -> Wide
    ensures { result ≡ start_word function.now args.now row.now }
{
    if row.initial {
        argument(&row.base, function.params.as_slice(), args).unwrap_or(Wide::reduce(0, row.ty))
    } else {
        Wide::reduce(0, row.ty)
    }
}

/// Writes the word of each row at the start into its slot.
#[tactic(auto, using(std::proofs::lemmas::List::at_drop_more))]
pub(crate) fn begin(function: &Function, slots: &mut [Wide], args: &[Wide])
    requires { length slots.old ≡ length function.now.names }
    ensures { slots.new ≡ map (start_word function.now args.now) function.now.names }
{
    let rows = function.names.as_slice();
    for at in 0..rows.len() {
        slots[at] = first_word(function, args, &rows[at]);
    }
}
