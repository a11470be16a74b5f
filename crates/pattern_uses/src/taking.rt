//! Uses of predicates taken out of a pattern, in preorder.
ghost use Rattle.std.specs.Prelude.{◌≡◌, ◌∷◌, drop, map, IfOk};
ghost use Rattle.pattern_uses.specs.Captures.{joined};
ghost use Rattle.pattern_uses.specs.Uses.{all_taken, cap_at, cap_at_in_node, first_label, first_of};
ghost use Rattle.pattern_uses.specs.Uses.{put_at, put_at_in_node, taken, taken_call};
ghost use Rattle.pattern_uses.specs.Uses.{taken_from_node, used_by_node, used_predicates};

use crate::sharing::copied_cap;
use crate::use_labels::{behind, first_label};
use pd_ast::{Cap, Pat, PatNode};
use pm_items::{Items, Shared};
use pm_ops::{OutOfMemory, Text};
use std::alloc::Global;

/// A pattern with labels in the place of its uses, and the arguments of these.
#[derive(Debug, Drop)]
pub struct Cut {
    pub pattern: Shared<Pat>,
    pub uses: Items<Items<Shared<Pat>>>,
}

/// The same of an operation.
#[derive(Debug, Drop)]
pub struct CutNode {
    pub node: PatNode,
    pub uses: Items<Items<Shared<Pat>>>,
}

/// The same of several patterns.
#[derive(Debug, Drop)]
pub struct CutAll {
    pub patterns: Items<Shared<Pat>>,
    pub uses: Items<Items<Shared<Pat>>>,
}

/// The predicates that a pattern uses, in preorder.
#[cycle(used_predicates)]
pub fn used_predicates(alloc: Global, pattern: &Pat) -> Result<Items<Text>, OutOfMemory>
    ensures { IfOk result (λ made. made ≡ used_predicates pattern.now) }
{
    match pattern {
        Pat::Hole(_) | Pat::Test(_, _) => Ok(Items::new(alloc)),
        Pat::Call(name, args, _) => {
            let mut made = Items::new(alloc);
            made.push(name.copy(alloc)?)?;
            made.append(used_among(alloc, args.as_slice())?)?;
            Ok(made)
        }
        Pat::Node(node) => used_by_node(alloc, node),
    }
}

#[cycle(used_predicates)]
fn used_by_node(alloc: Global, node: &PatNode) -> Result<Items<Text>, OutOfMemory>
    ensures { IfOk result (λ made. made ≡ used_by_node node.now) }
{
    used_among(alloc, node.args.as_slice())
}

#[cycle(used_predicates)]
fn used_among(alloc: Global, patterns: &[Shared<Pat>]) -> Result<Items<Text>, OutOfMemory>
    ensures { IfOk result (λ made. made ≡ joined (map used_predicates patterns.now)) }
{
    let mut made = Items::new(alloc);
    for pattern in patterns {
        made.append(used_predicates(alloc, pattern.get())?)?;
    }
    Ok(made)
}

/// A pattern with its uses taken out, each of which leaves the next of these labels.
#[cycle(taken)]
pub fn taken(alloc: Global, pattern: &Pat, names: &[Text]) -> Result<Cut, OutOfMemory>
    ensures { IfOk result (λ made. made ≡ taken pattern.now names.now) }
{
    match pattern {
        Pat::Hole(_) | Pat::Test(_, _) => Ok(Cut {
            pattern: Shared::new(alloc, pattern.copy(alloc)?)?,
            uses: Items::new(alloc),
        }),
        Pat::Call(_, args, cap) => {
            let inner = all_taken(alloc, args.as_slice(), behind(names, 1))?;
            taken_call(alloc, inner, first_label(alloc, names)?, cap)
        }
        Pat::Node(node) => {
            let one = taken_from_node(alloc, node, names)?;
            Ok(Cut {
                pattern: Shared::new(alloc, Pat::Node(one.node))?,
                uses: one.uses,
            })
        }
    }
}

#[cycle(taken)]
fn taken_from_node(alloc: Global, node: &PatNode, names: &[Text]) -> Result<CutNode, OutOfMemory>
    ensures { IfOk result (λ made. made ≡ taken_from_node node.now names.now) }
{
    let inner = all_taken(alloc, node.args.as_slice(), names)?;
    Ok(CutNode {
        node: PatNode {
            op: node.op.copy(alloc)?,
            flags: node.flags,
            cap: copied_cap(alloc, &node.cap)?,
            args: inner.patterns,
            at: node.at,
            len: node.len,
        },
        uses: inner.uses,
    })
}

/// Several patterns, one after the other.
#[cycle(taken)]
fn all_taken(alloc: Global, patterns: &[Shared<Pat>], names: &[Text]) -> Result<CutAll, OutOfMemory>
    ensures { IfOk result (λ made. made ≡ all_taken (map taken patterns.now) names.now) }
{
    let mut made = CutAll {
        patterns: Items::new(alloc),
        uses: Items::new(alloc),
    };
    let mut names = names;
    for pattern in patterns {
        let one = taken(alloc, pattern.get(), names)?;
        names = behind(names, one.uses.len());
        made.patterns.push(one.pattern)?;
        made.uses.append(one.uses)?;
    }
    Ok(made)
}

/// A use, its arguments taken out before it.
fn taken_call(
    alloc: Global,
    inner: CutAll,
    label: Text,
    cap: &Option<Cap>,
) -> Result<Cut, OutOfMemory>
    ensures { IfOk result (λ made. made ≡ taken_call inner label cap.now) }
{
    let mut uses = Items::new(alloc);
    uses.push(inner.patterns)?;
    uses.append(inner.uses)?;
    let left = Pat::Call(label, Items::new(alloc), copied_cap(alloc, cap)?);
    Ok(Cut {
        pattern: Shared::new(alloc, left)?,
        uses,
    })
}

/// The capture at a label.
#[cycle(cap_at)]
pub fn cap_at(alloc: Global, label: &Text, pattern: &Pat) -> Result<Option<Cap>, OutOfMemory>
    ensures { IfOk result (λ cap. cap ≡ cap_at label.now pattern.now) }
{
    match pattern {
        Pat::Hole(_) | Pat::Test(_, _) => Ok(None),
        Pat::Call(name, args, cap) => {
            if name.bytes() == label.bytes() {
                return copied_cap(alloc, cap);
            }
            cap_among(alloc, label, args.as_slice())
        }
        Pat::Node(node) => cap_at_in_node(alloc, label, node),
    }
}

#[cycle(cap_at)]
fn cap_at_in_node(alloc: Global, label: &Text, node: &PatNode) -> Result<Option<Cap>, OutOfMemory>
    ensures { IfOk result (λ cap. cap ≡ cap_at_in_node label.now node.now) }
{
    cap_among(alloc, label, node.args.as_slice())
}

#[cycle(cap_at)]
fn cap_among(
    alloc: Global,
    label: &Text,
    patterns: &[Shared<Pat>],
) -> Result<Option<Cap>, OutOfMemory>
    ensures { IfOk result (λ cap. cap ≡ first_of (map (cap_at label.now) patterns.now)) }
{
    for pattern in patterns {
        if let Some(cap) = cap_at(alloc, label, pattern.get())? {
            return Ok(Some(cap));
        }
    }
    Ok(None)
}

/// A pattern with this one in the place of a label.
#[cycle(put_at)]
pub fn put_at(
    alloc: Global,
    pattern: &Pat,
    label: &Text,
    inner: &Shared<Pat>,
) -> Result<Shared<Pat>, OutOfMemory>
    ensures { IfOk result (λ made. made ≡ put_at label.now inner.now pattern.now) }
{
    match pattern {
        Pat::Hole(_) | Pat::Test(_, _) => Ok(Shared::new(alloc, pattern.copy(alloc)?)?),
        Pat::Call(name, args, cap) => {
            if name.bytes() == label.bytes() {
                return Ok(inner.share()?);
            }
            let args = put_among(alloc, args.as_slice(), label, inner)?;
            let made = Pat::Call(name.copy(alloc)?, args, copied_cap(alloc, cap)?);
            Ok(Shared::new(alloc, made)?)
        }
        Pat::Node(node) => {
            let made = put_at_in_node(alloc, node, label, inner)?;
            Ok(Shared::new(alloc, Pat::Node(made))?)
        }
    }
}

#[cycle(put_at)]
fn put_at_in_node(
    alloc: Global,
    node: &PatNode,
    label: &Text,
    inner: &Shared<Pat>,
) -> Result<PatNode, OutOfMemory>
    ensures { IfOk result (λ made. made ≡ put_at_in_node label.now inner.now node.now) }
{
    Ok(PatNode {
        op: node.op.copy(alloc)?,
        flags: node.flags,
        cap: copied_cap(alloc, &node.cap)?,
        args: put_among(alloc, node.args.as_slice(), label, inner)?,
        at: node.at,
        len: node.len,
    })
}

#[cycle(put_at)]
fn put_among(
    alloc: Global,
    patterns: &[Shared<Pat>],
    label: &Text,
    inner: &Shared<Pat>,
) -> Result<Items<Shared<Pat>>, OutOfMemory>
    ensures { IfOk result (λ made. made ≡ map (put_at label.now inner.now) patterns.now) }
{
    let mut made = Items::new(alloc);
    for pattern in patterns {
        made.push(put_at(alloc, pattern.get(), label, inner)?)?;
    }
    Ok(made)
}
