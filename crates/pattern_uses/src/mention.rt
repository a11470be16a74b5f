//! What the end of a case names.
ghost use Rattle.std.specs.Prelude.{◌≡◌, [], ◌∷◌, map, IfOk};
ghost use Rattle.std.specs.List.{filter_map, flat_map, list_any};
ghost use Rattle.pattern_uses.specs.Captures.{joined};
ghost use Rattle.pattern_uses.specs.Mentions.{asks_subject, captures_of_tail, is_subject, mentioned};
ghost use Rattle.pattern_uses.specs.Mentions.{mentions_of_c_node, mentions_of_decl, mentions_of_expr};
ghost use Rattle.pattern_uses.specs.Mentions.{mentions_of_tail, mentions_of_value};

use pd_ast::{CDecl, CExpr, CNode, Tail};
use pm_items::Items;
use pm_ops::{OutOfMemory, Text};
use std::alloc::Global;

/// What the end of a case names.
#[derive(Debug, Drop)]
pub enum Mention {
    Capture(Text),
    /// The operand that a case is asked about, or its type.
    Subject,
}

/// Whether the end of a case asks about `t` or `type`.
pub fn asks_subject(alloc: Global, tail: &Tail) -> Result<bool, OutOfMemory>
    ensures { IfOk result (λ asks. asks ≡ asks_subject tail.now) }
{
    let mentions = mentions_of_tail(alloc, tail)?;
    Ok(some_subject(mentions.as_slice()))
}

fn some_subject(mentions: &[Mention]) -> bool
    ensures { result ≡ list_any is_subject mentions.now }
{
    for mention in mentions {
        if let Mention::Subject = mention {
            return true;
        }
    }
    false
}

/// The captures in the end of a case.
pub fn captures_of_tail(alloc: Global, tail: &Tail) -> Result<Items<Text>, OutOfMemory>
    ensures { IfOk result (λ made. made ≡ captures_of_tail tail.now) }
{
    let mentions = mentions_of_tail(alloc, tail)?;
    all_mentioned(alloc, mentions.as_slice())
}

fn all_mentioned(alloc: Global, mentions: &[Mention]) -> Result<Items<Text>, OutOfMemory>
    ensures { IfOk result (λ made. made ≡ filter_map mentioned mentions.now) }
{
    let mut made = Items::new(alloc);
    for mention in mentions {
        if let Mention::Capture(name) = mention {
            made.push(name.copy(alloc)?)?;
        }
    }
    Ok(made)
}

fn mentions_of_tail(alloc: Global, tail: &Tail) -> Result<Items<Mention>, OutOfMemory>
    ensures { IfOk result (λ made. made ≡ mentions_of_tail tail.now) }
{
    match tail {
        Tail::Done => Ok(Items::new(alloc)),
        Tail::If(when, rest) => {
            let mut made = mentions_of_expr(alloc, when)?;
            made.append(mentions_of_tail(alloc, rest.get())?)?;
            Ok(made)
        }
        Tail::With(decls, rest) => {
            let mut made = mentions_of_decls(alloc, decls.as_slice())?;
            made.append(mentions_of_tail(alloc, rest.get())?)?;
            Ok(made)
        }
    }
}

fn mentions_of_decls(alloc: Global, decls: &[CDecl]) -> Result<Items<Mention>, OutOfMemory>
    ensures { IfOk result (λ made. made ≡ flat_map mentions_of_decl decls.now) }
{
    let mut made = Items::new(alloc);
    for decl in decls {
        made.append(mentions_of_value(alloc, &decl.value)?)?;
    }
    Ok(made)
}

fn mentions_of_value(alloc: Global, value: &Option<CExpr>) -> Result<Items<Mention>, OutOfMemory>
    ensures { IfOk result (λ made. made ≡ mentions_of_value value.now) }
{
    match value {
        Some(expr) => mentions_of_expr(alloc, expr),
        None => Ok(Items::new(alloc)),
    }
}

#[cycle(mentions_of_expr)]
fn mentions_of_expr(alloc: Global, expr: &CExpr) -> Result<Items<Mention>, OutOfMemory>
    ensures { IfOk result (λ made. made ≡ mentions_of_expr expr.now) }
{
    mentions_of_c_node(alloc, &expr.node)
}

#[cycle(mentions_of_expr)]
fn mentions_of_c_node(alloc: Global, node: &CNode) -> Result<Items<Mention>, OutOfMemory>
    ensures { IfOk result (λ made. made ≡ mentions_of_c_node node.now) }
{
    match node {
        CNode::Number(_) | CNode::Truth(_) | CNode::Sign(_) | CNode::OfCode(_) => {
            Ok(Items::new(alloc))
        }
        CNode::Choice(_) | CNode::Local(_) => Ok(Items::new(alloc)),
        CNode::Capture(name) => one_mention(alloc, Mention::Capture(name.copy(alloc)?)),
        CNode::Subject | CNode::SubjectType => one_mention(alloc, Mention::Subject),
        CNode::Unary(_, a) => mentions_of_expr(alloc, a.get()),
        CNode::Binary(_, a, b) => {
            let mut made = mentions_of_expr(alloc, a.get())?;
            made.append(mentions_of_expr(alloc, b.get())?)?;
            Ok(made)
        }
        CNode::Choose(a, b, c) => {
            let mut last = mentions_of_expr(alloc, b.get())?;
            last.append(mentions_of_expr(alloc, c.get())?)?;
            let mut made = mentions_of_expr(alloc, a.get())?;
            made.append(last)?;
            Ok(made)
        }
        CNode::CodeTest(a, _, _) => mentions_of_expr(alloc, a.get()),
        CNode::Call(_, args) => among_exprs(alloc, args.as_slice()),
    }
}

#[cycle(mentions_of_expr)]
fn among_exprs(alloc: Global, exprs: &[CExpr]) -> Result<Items<Mention>, OutOfMemory>
    ensures { IfOk result (λ made. made ≡ joined (map mentions_of_expr exprs.now)) }
{
    let mut made = Items::new(alloc);
    for expr in exprs {
        made.append(mentions_of_expr(alloc, expr)?)?;
    }
    Ok(made)
}

fn one_mention(alloc: Global, mention: Mention) -> Result<Items<Mention>, OutOfMemory>
    ensures { IfOk result (λ made. made ≡ mention ∷ []) }
{
    let mut made = Items::new(alloc);
    made.push(mention)?;
    Ok(made)
}
