//! A step: what it tells, and carrying a choice out.
ghost use Rattle.std.specs.Prelude.{◌≡◌, [], IfOk};
ghost use Rattle.gim_changes.specs.Trimming.{tidied};
ghost use Rattle.first_rewriting.specs.Rewriting.{changed, base_at};
ghost use Rattle.first_rewriting.specs.Views.{site_of};
ghost use Rattle.first_rewriting.specs.Choices.{result_of};

use crate::choice::{Found, Outcome, bool_zero};
use crate::firing::{Firing, Site};
use crate::lookup::name_row;
use gim_ast::Function;
use gim_changes::{put_in_all, set_condition, set_rhs, tidy};
use pm_ops::{Code, OutOfMemory, Text};
use std::alloc::Global;

/// What the step of a choice tells of itself, before it is carried out.
pub(crate) fn firing_at(
    alloc: Global,
    function: &Function,
    found: &Found,
) -> Result<Firing, OutOfMemory>
    ensures { IfOk result (λ firing. firing ≡ record {
      subject = found.now.site;
      base = base_at function.now (site_of found.now.site);
      what = found.now.choice.what;
    }) }
{
    Ok(Firing {
        subject: found.site,
        base: base_of(alloc, function, &found.site)?,
        what: found.choice.what,
    })
}

/// The base of the name that a statement assigns. It is empty for an anonymous name, and at a
/// condition.
fn base_of(alloc: Global, function: &Function, site: &Site) -> Result<Text, OutOfMemory>
    ensures { IfOk result (λ base. base ≡ base_at function.now (site_of site.now)) }
{
    match site {
        Site::Stmt(name) => match name_row(function, *name) {
            Some(row) => row.base.copy(alloc),
            None => Ok(Text::empty(alloc)),
        },
        Site::Cond(_) => Ok(Text::empty(alloc)),
    }
}

/// Carries a choice out, and removes what is unused then.
pub(crate) fn carry_out(alloc: Global, function: &mut Function, found: &Found)
    ensures { function.new ≡ tidied (changed (site_of found.now.site)
        (result_of found.now.choice.outcome) function.old) }
{
    change(alloc, function, &found.site, &found.choice.outcome);
    tidy(function);
}

/// Puts an operand for each use of a statement's name, or makes another right side or condition.
fn change(alloc: Global, function: &mut Function, site: &Site, outcome: &Outcome)
    ensures { function.new ≡ changed (site_of site.now) (result_of outcome.now) function.old }
{
    match (site, outcome) {
        (Site::Stmt(name), Outcome::Operand(a)) => put_in_all(function, *name, a),
        (Site::Stmt(name), Outcome::Exchanged(code, a, b)) => set_rhs(
            alloc, function, *name, *code, a, b,
        ),
        (Site::Cond(number), Outcome::Operand(a)) => {
            set_condition(function, *number, Code::Ne, a, &bool_zero());
        }
        (Site::Cond(number), Outcome::Exchanged(code, a, b)) => set_condition(
            function, *number, *code, a, b,
        ),
    }
}
