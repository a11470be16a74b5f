//! C parts from tokens to typed trees: syntax first, then names, then types.

ghost use Rattle.std.specs.Prelude.{map};
ghost use Rattle.cond_subset.specs.Trees.{expr_of};
ghost use Rattle.cond_subset.specs.Declarations.{decl_of, SpellsBlock};
ghost use Rattle.cond_subset.specs.Grammar.{Spells};
ghost use Rattle.cond_subset.specs.Syntax.{symbols_of, SpellsBrace};
ghost use Rattle.cond_subset.specs.Types.{Finds};
ghost use Rattle.cond_subset.specs.Outcomes.{cond_meaning, brace_meaning, block_meaning, Answers, AnswersOnly, Judged};

use crate::blocks::make_block;
use crate::making::{make_brace, make_cond};
use crate::names::{check_block_names, check_names};
use crate::part::{block_syntax, brace_syntax, cond_syntax};
use crate::scope::Scope;
use crate::tree::{DeclText, ExprText};
use pd_ast::{CDecl, CExpr};
use pd_lexer::Token;
use pm_items::Items;
use pm_ops::PatternFault;
use std::alloc::Global;

/// The typed tree of a condition, or its first fault of names, then of types.
fn mean_cond(
    alloc: Global,
    source: &[u8],
    scope: &Scope,
    expr: &ExprText,
) -> Result<CExpr, PatternFault>
    ensures { Finds (cond_meaning source.now scope.now (expr_of expr.now)) result }
{
    check_names(alloc, source, scope, expr)?;
    make_cond(alloc, source, scope, expr)
}

/// The same of what was read as a condition.
fn judge_cond(
    alloc: Global,
    source: &[u8],
    scope: &Scope,
    read: Result<ExprText, PatternFault>,
) -> Result<CExpr, PatternFault>
    ensures { Judged expr_of (cond_meaning source.now scope.now) read result }
{
    match read {
        Ok(expr) => mean_cond(alloc, source, scope, &expr),
        Err(fault) => Err(fault),
    }
}

/// The condition of an `if`, by the tokens between its parentheses: a typed tree, or the first
/// fault of syntax (CSyntax), then of names (CName), then of types (CType), each over the whole
/// condition. Its value is a truth.
pub fn parse_cond(
    alloc: Global,
    tokens: &[Token],
    source: &[u8],
    scope: &Scope,
) -> Result<CExpr, PatternFault>
    // What is answered is what the tokens come to, unless memory ran out.
    ensures outcome { Answers Spells (cond_meaning source.now scope.now) (symbols_of source.now tokens.now) result }
    // What they come to is answered, unless memory runs out.
    ensures only { AnswersOnly Spells (cond_meaning source.now scope.now) (symbols_of source.now tokens.now) result }
{
    judge_cond(alloc, source, scope, cond_syntax(alloc, tokens, source))
}

/// The typed tree of an operand in braces, or its first fault of names, then of types.
fn mean_brace(
    alloc: Global,
    source: &[u8],
    scope: &Scope,
    expr: &ExprText,
) -> Result<CExpr, PatternFault>
    ensures { Finds (brace_meaning source.now scope.now (expr_of expr.now)) result }
{
    check_names(alloc, source, scope, expr)?;
    make_brace(alloc, source, scope, expr)
}

/// The same of what was read between braces.
fn judge_brace(
    alloc: Global,
    source: &[u8],
    scope: &Scope,
    read: Result<ExprText, PatternFault>,
) -> Result<CExpr, PatternFault>
    ensures { Judged expr_of (brace_meaning source.now scope.now) read result }
{
    match read {
        Ok(expr) => mean_brace(alloc, source, scope, &expr),
        Err(fault) => Err(fault),
    }
}

/// A result operand in braces, by the tokens between them: an expression, with a `;` or without. It
/// is a typed tree, or the first fault of syntax (CSyntax), then of names (CName), then of types
/// (CType), each over the whole part. Its value is an operand.
pub fn parse_brace(
    alloc: Global,
    tokens: &[Token],
    source: &[u8],
    scope: &Scope,
) -> Result<CExpr, PatternFault>
    // What is answered is what the tokens come to, unless memory ran out.
    ensures outcome { Answers SpellsBrace (brace_meaning source.now scope.now) (symbols_of source.now tokens.now) result }
    // What they come to is answered, unless memory runs out.
    ensures only { AnswersOnly SpellsBrace (brace_meaning source.now scope.now) (symbols_of source.now tokens.now) result }
{
    judge_brace(alloc, source, scope, brace_syntax(alloc, tokens, source))
}

/// The declarations of a block, or its first fault of names, then of types.
fn mean_block(
    alloc: Global,
    source: &[u8],
    scope: &Scope,
    decls: &[DeclText],
) -> Result<Items<CDecl>, PatternFault>
    ensures { Finds (block_meaning source.now scope.now (map decl_of decls.now)) result }
{
    check_block_names(alloc, source, scope, decls)?;
    make_block(alloc, source, scope, decls)
}

/// The same of what was read as a block.
fn judge_block(
    alloc: Global,
    source: &[u8],
    scope: &Scope,
    read: Result<Items<DeclText>, PatternFault>,
) -> Result<Items<CDecl>, PatternFault>
    ensures { Judged (map decl_of) (block_meaning source.now scope.now) read result }
{
    match read {
        Ok(decls) => mean_block(alloc, source, scope, decls.as_slice()),
        Err(fault) => Err(fault),
    }
}

/// The declarations of a `with` block, by the tokens between its braces: typed trees, or the first
/// fault of syntax (CSyntax), then of names (CName), then of types (CType), each over the whole
/// block.
pub fn parse_block(
    alloc: Global,
    tokens: &[Token],
    source: &[u8],
    scope: &Scope,
) -> Result<Items<CDecl>, PatternFault>
    // What is answered is what the tokens come to, unless memory ran out.
    ensures outcome { Answers SpellsBlock (block_meaning source.now scope.now) (symbols_of source.now tokens.now) result }
    // What they come to is answered, unless memory runs out.
    ensures only { AnswersOnly SpellsBlock (block_meaning source.now scope.now) (symbols_of source.now tokens.now) result }
{
    judge_block(alloc, source, scope, block_syntax(alloc, tokens, source))
}
