//! Copies of patterns, results and ends of cases.
//!
//! A tree is written by letters: each makes a node of its kind, whose operands are all nodes made
//! before it.

use pd_ast::{
    CDecl, CExpr, CNode, CType, Cap, Commute, DeclKind, Flags, OpRef, Out, OutNode, Pat, PatNode,
    SwitchCase, Tail,
};
use pm_items::{Items, Shared};
use pm_ops::{Code, OutOfMemory, Pred, Text};
use std::alloc::Global;
use std::process::Abort;

/// Each kind of pattern: captures, predicates and uses with and without a capture, and operations
/// by each kind of operator.
const PATTERNS: &str = "hvtTpPnNcl0";

/// Each kind of result: a capture, an operand in braces, operations with and without a type,
/// choices with and without a last result, and a block.
const RESULTS: &str = "hbnNiIsSw";

/// Each kind of end.
const TAILS: &str = "diwiw";

fn text(alloc: Global, text: &str) -> Result<Text, OutOfMemory> {
    Text::new(alloc, text.as_bytes())
}

/// The operator of a letter.
fn operator(alloc: Global, letter: u8) -> Result<OpRef, OutOfMemory> {
    match letter {
        b'c' => Ok(OpRef::Chosen(text(alloc, "op")?)),
        b'l' => Ok(OpRef::Listed(text(alloc, "ops")?)),
        b'0' => Ok(OpRef::Null),
        _ => Ok(OpRef::Fixed(Code::Negate)),
    }
}

/// A capture, which is there for a capital letter.
fn capture(alloc: Global, letter: u8) -> Result<Option<Cap>, OutOfMemory> {
    if letter.is_ascii_uppercase() {
        let name = text(alloc, "1")?;
        Ok(Some(Cap {
            name,
            by_value: false,
        }))
    } else {
        Ok(None)
    }
}

/// The same patterns, shared.
fn shared_patterns(alloc: Global, made: &[Shared<Pat>]) -> Result<Items<Shared<Pat>>, OutOfMemory> {
    let mut all = Items::new(alloc);
    for tree in made {
        all.push(tree.share()?)?;
    }
    Ok(all)
}

/// An operation on patterns.
fn operation(alloc: Global, letter: u8, made: &[Shared<Pat>]) -> Result<PatNode, OutOfMemory> {
    let flags = Flags {
        commute: Commute::Checked,
        single: true,
        optional: Some(0),
    };
    Ok(PatNode {
        op: operator(alloc, letter)?,
        flags,
        cap: capture(alloc, letter)?,
        args: shared_patterns(alloc, made)?,
        at: 3,
        len: 6,
    })
}

/// The pattern of a letter.
fn pattern_of(alloc: Global, letter: u8, made: &[Shared<Pat>]) -> Result<Pat, OutOfMemory> {
    match letter {
        b'h' | b'v' => {
            let name = text(alloc, "0")?;
            let by_value = letter == b'v';
            Ok(Pat::Hole(Cap { name, by_value }))
        }
        b't' | b'T' => Ok(Pat::Test(Pred::Zero, capture(alloc, letter)?)),
        b'p' | b'P' => {
            let args = shared_patterns(alloc, made)?;
            Ok(Pat::Call(text(alloc, "p")?, args, capture(alloc, letter)?))
        }
        _ => Ok(Pat::Node(operation(alloc, letter, made)?)),
    }
}

/// A copy of a pattern is the pattern.
fn judge_pattern(rt: &impl Abort, alloc: Global, tree: &Pat) -> Result<(), OutOfMemory> {
    let copy = tree.copy(alloc)?;
    let same = copy.same(tree);
    assert!(rt; same);
    Ok(())
}

#[test]
fn patterns(rt: HostRuntime) -> Result<(), OutOfMemory> {
    let alloc = rt.alloc();
    let mut made = Items::new(alloc);
    for letter in PATTERNS.bytes() {
        let tree = pattern_of(alloc, letter, made.as_slice())?;
        judge_pattern(&rt, alloc, &tree)?;
        made.push(Shared::new(alloc, tree)?)?;
    }
    Ok(())
}

/// `true`.
fn condition() -> CExpr {
    CExpr {
        node: CNode::Truth(true),
        ty: CType::Truth,
    }
}

/// `wi::overflow_type o; bool b = true;`
fn block(alloc: Global) -> Result<Items<CDecl>, OutOfMemory> {
    let mut decls = Items::new(alloc);
    decls.push(CDecl {
        kind: DeclKind::Overflow,
        name: text(alloc, "o")?,
        value: None,
        overflow: None,
    })?;
    decls.push(CDecl {
        kind: DeclKind::Truth,
        name: text(alloc, "b")?,
        value: Some(condition()),
        overflow: None,
    })?;
    Ok(decls)
}

/// The same results, shared.
fn shared_results(alloc: Global, made: &[Shared<Out>]) -> Result<Items<Shared<Out>>, OutOfMemory> {
    let mut all = Items::new(alloc);
    for tree in made {
        all.push(tree.share()?)?;
    }
    Ok(all)
}

/// The last result, and else a capture.
fn last_result(alloc: Global, made: &[Shared<Out>]) -> Result<Shared<Out>, OutOfMemory> {
    match made {
        [.., last] => Ok(last.share()?),
        _ => Ok(Shared::new(alloc, Out::Hole(text(alloc, "0")?))?),
    }
}

/// The last result, for a capital letter.
fn otherwise(
    alloc: Global,
    letter: u8,
    made: &[Shared<Out>],
) -> Result<Option<Shared<Out>>, OutOfMemory> {
    if letter.is_ascii_uppercase() {
        Ok(Some(last_result(alloc, made)?))
    } else {
        Ok(None)
    }
}

/// An operation on results, with a type for a capital letter.
fn result_operation(
    alloc: Global,
    letter: u8,
    made: &[Shared<Out>],
) -> Result<OutNode, OutOfMemory> {
    let ty = if letter.is_ascii_uppercase() {
        Some(text(alloc, "type")?)
    } else {
        None
    };
    Ok(OutNode {
        op: operator(alloc, letter)?,
        must_fold: true,
        ty,
        args: shared_results(alloc, made)?,
    })
}

/// A case for each result.
fn cases(alloc: Global, made: &[Shared<Out>]) -> Result<Items<SwitchCase>, OutOfMemory> {
    let mut cases = Items::new(alloc);
    for tree in made {
        let gives = tree.share()?;
        let when = condition();
        cases.push(SwitchCase { when, gives })?;
    }
    Ok(cases)
}

/// The result of a letter.
fn result_of(alloc: Global, letter: u8, made: &[Shared<Out>]) -> Result<Out, OutOfMemory> {
    match letter {
        b'h' => Ok(Out::Hole(text(alloc, "0")?)),
        b'b' => Ok(Out::Brace(condition())),
        b'i' | b'I' => {
            let gives = last_result(alloc, made)?;
            Ok(Out::If(condition(), gives, otherwise(alloc, letter, made)?))
        }
        b's' | b'S' => {
            let cases = cases(alloc, made)?;
            Ok(Out::Switch(cases, otherwise(alloc, letter, made)?))
        }
        b'w' => {
            let gives = last_result(alloc, made)?;
            Ok(Out::With(block(alloc)?, gives))
        }
        _ => Ok(Out::Node(result_operation(alloc, letter, made)?)),
    }
}

/// A copy of a result is the result.
fn judge_result(rt: &impl Abort, alloc: Global, tree: &Out) -> Result<(), OutOfMemory> {
    let copy = tree.copy(alloc)?;
    let same = copy.same(tree);
    assert!(rt; same);
    Ok(())
}

#[test]
fn results(rt: HostRuntime) -> Result<(), OutOfMemory> {
    let alloc = rt.alloc();
    let mut made = Items::new(alloc);
    for letter in RESULTS.bytes() {
        let tree = result_of(alloc, letter, made.as_slice())?;
        judge_result(&rt, alloc, &tree)?;
        made.push(Shared::new(alloc, tree)?)?;
    }
    Ok(())
}

/// The end of a letter, which the given end follows.
fn end_of(alloc: Global, letter: u8, rest: Tail) -> Result<Tail, OutOfMemory> {
    match letter {
        b'i' => Ok(Tail::If(condition(), Shared::new(alloc, rest)?)),
        b'w' => Ok(Tail::With(block(alloc)?, Shared::new(alloc, rest)?)),
        _ => Ok(Tail::Done),
    }
}

/// A copy of an end is the end.
fn judge_end(rt: &impl Abort, alloc: Global, tree: &Tail) -> Result<(), OutOfMemory> {
    let copy = tree.copy(alloc)?;
    let same = copy.same(tree);
    assert!(rt; same);
    Ok(())
}

#[test]
fn ends(rt: HostRuntime) -> Result<(), OutOfMemory> {
    let alloc = rt.alloc();
    let mut made = Tail::Done;
    for letter in TAILS.bytes() {
        made = end_of(alloc, letter, made)?;
        judge_end(&rt, alloc, &made)?;
    }
    Ok(())
}
