//! What holds of all answers.

ghost use Rattle.std.specs.Prelude.{◌≡◌, ◌⊎◌, ◌≤◌, ℕ, List, Option, Some, Err, length};
ghost use Rattle.std.specs.List.{AllByRecursion, AllZip};
ghost use Rattle.gim_ast.specs.declared.function.Function.{Function};
ghost use Rattle.gim_printer.specs.Printing.{text};
ghost use Rattle.gim_ast.specs.Readable.{IsValid};
ghost use Rattle.gim_text.specs.declared.limits.TheConstants.{BLOCK_LIMIT, NAME_LIMIT, NUMBER_LIMIT};
ghost use Rattle.gim_meaning.specs.AllRuns.{KeepsAllRuns};
ghost use Rattle.gim_round_trip.specs.ReadBack.{MayBeReadBack};
ghost use Rattle.match_top.specs.Answer.{Answer, status_of, out_of};
ghost use Rattle.match_top.specs.Check.{Checks};
ghost use Rattle.match_top.specs.Commands.{needs_of, work_of};
ghost use Rattle.match_top.specs.Functions.{IsAccepted};
ghost use Rattle.match_top.specs.Given.{AnswersHeld};
ghost use Rattle.match_top.specs.Needs.{limit_of, functions_named};
ghost use Rattle.match_top.specs.Passes.{AllBecome, Passes};
ghost use Rattle.match_top.specs.RunsAsRead.{RunsAsRead};
ghost use Rattle.match_top.specs.declared.passes.Pass.{Pass};
ghost use Rattle.match_top.specs.declared.answer.Stop.TheVariants.{Memory};
ghost use Rattle.match_top.specs.declared.commands.Command.{Command};
ghost use Rattle.match_top.specs.declared.needs.Kind.TheVariants.{Patterns, FirstForm, Functions};
ghost use Rattle.match_top.specs.declared.status.Status.TheVariants.{Done};

/// What a command answers to held files is determined, but that memory may run out.
pub fn one_answer()
    ensures { (command : Option Command) (held : List ℕ → Option (List ℕ)) (a b : Answer) →
        AnswersHeld (needs_of command) (work_of command) held a →
        AnswersHeld (needs_of command) (work_of command) held b →
        (a ≡ b) ⊎ ((a ≡ Err Memory) ⊎ (b ≡ Err Memory)) }
{}

/// The printed text of valid functions of distinct names within the limits is accepted, and stands for the same functions.
pub fn printed_functions_are_accepted()
    ensures { (fs : List Function) → MayBeReadBack fs → AllByRecursion IsValid fs → IsAccepted (text fs) fs }
{}

/// What `check` prints is accepted, where it is no longer than a file may be, and printed again as it is.
pub fn what_check_prints_it_prints_again()
    ensures { (held : List ℕ → Option (List ℕ)) (name again : List ℕ) (a b : Answer) →
        AnswersHeld (functions_named name) Checks held a → status_of a ≡ Done → held again ≡ Some (out_of a) →
        length (out_of a) ≤ limit_of Functions → AnswersHeld (functions_named again) Checks held b → (b ≡ a) ⊎ (b ≡ Err Memory) }
{}

/// A pass keeps functions valid, and leaves each run as it is: on all arguments and with each fuel a function returns the same word,
/// is undefined at the same name, or is still running.
pub fn passes_keep_runs()
    ensures valid { (pass : Pass) (fs gs : List Function) (report : List ℕ) → AllByRecursion IsValid fs →
        AllBecome pass fs gs report → AllByRecursion IsValid gs }
    ensures runs { (pass : Pass) (fs gs : List Function) (report : List ℕ) → AllByRecursion IsValid fs →
        AllBecome pass fs gs report → AllZip KeepsAllRuns fs gs }
{}

/// What `tidy` and `number` write to `out` are valid functions, one for each function of the held file, that run as those do.
pub fn what_is_written_runs_as_read()
    ensures { (held : List ℕ → Option (List ℕ)) (pass : Pass) (name : List ℕ) (a : Answer) →
        AnswersHeld (functions_named name) (Passes pass) held a → status_of a ≡ Done → RunsAsRead held name (out_of a) }
{}

/// The limits of files and of functions that are read, in numbers.
pub fn limits_in_numbers()
    ensures files { (limit_of Patterns ≡ 4194304) × (limit_of FirstForm ≡ 16777216) × (limit_of Functions ≡ 16777216) }
    ensures functions { (BLOCK_LIMIT ≡ 2000) × (NAME_LIMIT ≡ 20000) × (NUMBER_LIMIT ≡ 1000000000) }
{}
