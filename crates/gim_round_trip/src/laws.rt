//! The laws of reading back.

ghost use Rattle.std.specs.Prelude.{ℕ, ◌≤◌, List, length};
ghost use Rattle.gim_ast.specs.declared.function.Function.{Function};
ghost use Rattle.gim_printer.specs.Printing.{text};
ghost use Rattle.gim_reader.specs.declared.TheConstants.{FILE_LIMIT};
ghost use Rattle.gim_reader.specs.Files.{IsFile};
ghost use Rattle.gim_round_trip.specs.ReadBack.{MayBeReadBack};

/// The printed text of well-formed functions of distinct names within the limits is accepted, and
/// stands for the same functions.
pub fn what_is_printed_is_read_back()
    ensures { (fs : List Function) → MayBeReadBack fs → IsFile (text fs) fs }
{}

/// The functions that a file stands for are such, but that their text may be longer than a file may
/// be.
pub fn what_is_read_may_be_printed()
    ensures { (source : List ℕ) (fs : List Function) → IsFile source fs →
        length (text fs) ≤ FILE_LIMIT → MayBeReadBack fs }
{}
