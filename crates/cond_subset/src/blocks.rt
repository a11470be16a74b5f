//! Declarations with typed values, each after those before it.

ghost use Rattle.std.specs.Prelude.{◌≡◌, [], map, IfOk};
ghost use Rattle.cond_subset.specs.Declarations.{value_of, decl_of};
ghost use Rattle.cond_subset.specs.Blocks as blocks;
ghost use Rattle.cond_subset.specs.Types.{Finds};

use crate::making::{call_name, make, make_all, types_of};
use crate::scope::{Scope, Typed};
use crate::tree::{Callee, DeclText, DeclWord, FlaggedCall, ValueText};
use crate::types::{declared_type, flagged_type, or_fault_at};
use pd_ast::{CDecl, CExpr, CNode, CType, DeclKind};
use pm_items::Items;
use pm_ops::{OutOfMemory, PatternFault, Text};
use pm_places::{Span, text};
use std::alloc::Global;

/// The word of a declaration.
fn kind_of(word: DeclWord) -> DeclKind
    ensures { result ≡ blocks.kind_of word }
{
    match word {
        DeclWord::Tree => DeclKind::Tree,
        DeclWord::WideInt => DeclKind::WideInt,
        DeclWord::Boolean => DeclKind::Truth,
        DeclWord::Int => DeclKind::Int,
        DeclWord::Unsigned => DeclKind::Unsigned,
        DeclWord::Signop => DeclKind::Sign,
        DeclWord::TreeCode => DeclKind::TreeCode,
    }
}

/// A value that its word takes.
fn take_value(word: DeclWord, at: Span, value: CExpr) -> Result<CExpr, PatternFault>
    ensures { Finds (blocks.value_taken word at value) result }
{
    let _ty = or_fault_at(at, declared_type(word, value.ty))?;
    Ok(value)
}

/// The type of a call with this flag and these other arguments.
fn type_of_flagged(
    alloc: Global,
    source: &[u8],
    block: &[Typed],
    call: FlaggedCall,
    flag: &[u8],
    args: &[CExpr],
) -> Result<CType, PatternFault>
    ensures { Finds (blocks.type_of_flagged source.now block.now call flag.now args.now) result }
{
    let types = types_of(alloc, args)?;
    let ty = flagged_type(source, block, call.operation, flag, &types);
    or_fault_at(call.name, ty)
}

/// A call with this flag and these other arguments.
fn make_flagged(
    alloc: Global,
    source: &[u8],
    block: &[Typed],
    call: FlaggedCall,
    flag: &[u8],
    args: Items<CExpr>,
) -> Result<CExpr, PatternFault>
    ensures { Finds (blocks.flagged_made source.now block.now call flag.now args) result }
{
    let ty = type_of_flagged(alloc, source, block, call, flag, args.as_slice())?;
    let callee = Callee {
        wide: Some(call.wide),
        name: call.name,
    };
    let name = call_name(alloc, source, &callee)?;
    Ok(CExpr {
        node: CNode::Call(name, args),
        ty,
    })
}

/// The value of a local of this name, declared with this word.
fn make_value(
    alloc: Global,
    source: &[u8],
    scope: &Scope,
    block: &[Typed],
    word: DeclWord,
    name: Span,
    value: &ValueText,
) -> Result<CExpr, PatternFault>
    ensures { Finds (blocks.value_made source.now scope.now block.now word name (value_of value.now)) result }
{
    match value {
        ValueText::Plain(expr) => {
            let value = make(alloc, source, scope, block, expr)?;
            take_value(word, name, value)
        }
        ValueText::Flagged(call, args, flag) => {
            let args = make_all(alloc, source, scope, block, args.as_slice())?;
            make_flagged(alloc, source, block, *call, text(source, *flag), args)
        }
    }
}

/// The flag that a value sets.
fn flag_name(alloc: Global, source: &[u8], value: &ValueText) -> Result<Option<Text>, OutOfMemory>
    ensures { IfOk result (λ flag. flag ≡ blocks.flag_name source.now (value_of value.now)) }
{
    match value {
        ValueText::Plain(_) => Ok(None),
        ValueText::Flagged(_, _, flag) => Ok(Some(Text::new(alloc, text(source, *flag))?)),
    }
}

/// A declaration.
fn make_decl(
    alloc: Global,
    source: &[u8],
    scope: &Scope,
    block: &[Typed],
    decl: &DeclText,
) -> Result<CDecl, PatternFault>
    ensures { Finds (blocks.decl_made source.now scope.now block.now (decl_of decl.now)) result }
{
    match decl {
        DeclText::Valued(word, name, value) => {
            let made = make_value(alloc, source, scope, block, *word, *name, value)?;
            let overflow = flag_name(alloc, source, value)?;
            Ok(CDecl {
                kind: kind_of(*word),
                name: Text::new(alloc, text(source, *name))?,
                value: Some(made),
                overflow,
            })
        }
        DeclText::Overflow(name) => Ok(CDecl {
            kind: DeclKind::Overflow,
            name: Text::new(alloc, text(source, *name))?,
            value: None,
            overflow: None,
        }),
    }
}

/// The name that a declaration declares, with its type.
fn entry(decl: &DeclText, made: &CDecl) -> Typed
    ensures { result ≡ blocks.entry (decl_of decl.now) made.now }
{
    match decl {
        DeclText::Valued(_, name, _) => Typed {
            name: *name,
            ty: match &made.value {
                Some(value) => value.ty,
                None => CType::Truth,
            },
            flag: false,
        },
        DeclText::Overflow(name) => Typed {
            name: *name,
            ty: CType::Truth,
            flag: true,
        },
    }
}

/// The declarations of a block whose names are known, or their first fault of types.
pub fn make_block(
    alloc: Global,
    source: &[u8],
    scope: &Scope,
    decls: &[DeclText],
) -> Result<Items<CDecl>, PatternFault>
    ensures { Finds (blocks.block_made source.now scope.now (map decl_of decls.now)) result }
{
    let mut block = Vec::new(alloc);
    let mut made = Items::new(alloc);
    for decl in decls {
        let one = make_decl(alloc, source, scope, &block, decl)?;
        block.push(entry(decl, &one))?;
        made.push(one)?;
    }
    Ok(made)
}
