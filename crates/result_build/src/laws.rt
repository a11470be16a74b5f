//! What holds of results. Each call here does nothing: its contract is a law, which its check proves.
ghost use Rattle.std.specs.Prelude.{◌≡◌, Option, Some};
ghost use Rattle.pm_wide.specs.Types.{Ty};
ghost use Rattle.pm_term.specs.Trees.{Tree, type_of};
ghost use Rattle.result_types.specs.Drafts.{Shape};
ghost use Rattle.result_types.specs.OwnTypes.{type_in};
ghost use Rattle.pd_ast.specs.declared.result.Out.{Out};
ghost use Rattle.pattern_rows.specs.declared.caps.Caps.{Caps};
ghost use Rattle.cond_eval.specs.declared.environment.CEnv.{CEnv};
ghost use Rattle.result_build.specs.declared.raw.Raw.{Raw};
ghost use Rattle.result_build.specs.RawResults.{OperationHas, raw_result};
ghost use Rattle.result_build.specs.TypedResults.{typed};

/// The term of a draft has the draft's type. So a conversion is dropped exactly where its type is that
/// of the term that it converts.
pub fn terms_have_their_types()
    ensures { (wanted : Option Ty) (draft : Shape) (term : Tree) →
        typed wanted draft ≡ Some term → type_in wanted draft ≡ Some (type_of term) }
{}

/// An operation that a row gives has the subject's type; an operand keeps its own.
pub fn operations_have_the_subjects_type()
    ensures { (out : Out) (caps : Caps) (env : CEnv) (raw : Raw) →
        raw_result out caps env ≡ Some raw → OperationHas env.ty raw.body }
{}
