//! A small function with each kind of part, tested and copied.
use gim_ast::{Block, Decl, End, Function, NameRow, Operands, Phi, Rhs, Stmt};
use pm_items::Items;
use pm_ops::{Code, OutOfMemory, Text};
use pm_wide::{IntType, Operand};
use std::alloc::Global;

/// A use of a name of type int.
fn x(version: u32) -> Operand {
    Operand::Name(version, IntType::int())
}

/// A row of type int.
fn row(alloc: Global, version: u32, base: &[u8], initial: bool) -> Result<NameRow, OutOfMemory> {
    Ok(NameRow {
        version,
        base: Text::new(alloc, base)?,
        ty: IntType::int(),
        initial,
    })
}

/// One declaration of type int.
fn decls(alloc: Global, ident: &[u8]) -> Result<Items<Decl>, OutOfMemory> {
    let mut decls = Items::new(alloc);
    decls.push(Decl {
        ident: Text::new(alloc, ident)?,
        ty: IntType::int(),
    })?;
    Ok(decls)
}

/// A block without phis and statements.
fn block(alloc: Global, number: u32, end: End) -> Block {
    Block {
        number,
        phis: Items::new(alloc),
        stmts: Items::new(alloc),
        end,
    }
}

/// `int f (int x)` with the local `_2`: a condition, a sum on one way, and a phi where the ways join.
fn sample(alloc: Global, joins_at: u32) -> Result<Function, OutOfMemory> {
    let entry = block(alloc, 2, End::If(Code::Lt, x(1), x(1), 3, 4));
    let mut way = block(alloc, 3, End::Goto(4));
    let mut join = block(alloc, joins_at, End::Return(x(3)));
    way.stmts.push(Stmt {
        name: 2,
        rhs: Rhs::Op(Code::Plus, Operands::two(alloc, x(1), x(1))),
    })?;
    join.phis.push(Phi {
        name: 3,
        args: Items::from_slice(alloc, &[(2, x(1)), (3, x(2))])?,
    })?;
    let mut blocks = Items::new(alloc);
    blocks.push(entry)?;
    blocks.push(way)?;
    blocks.push(join)?;
    let mut names = Items::new(alloc);
    names.push(row(alloc, 1, b"x", true)?)?;
    names.push(row(alloc, 2, b"", false)?)?;
    names.push(row(alloc, 3, b"x", false)?)?;
    Ok(Function {
        name: Text::new(alloc, b"f")?,
        result: IntType::int(),
        params: decls(alloc, b"x")?,
        decls: decls(alloc, b"_2")?,
        names,
        blocks,
    })
}

/// Each kind of rule is kept by the sample and broken by a change of it.
#[test]
fn rules_are_kept_or_not(rt: HostRuntime) -> Result<(), OutOfMemory> {
    let alloc = rt.alloc();
    assert!(rt; sample(alloc, 4)?.well_formed());
    assert!(rt; !sample(alloc, 5)?.well_formed());
    assert!(rt; !sample(alloc, 3)?.well_formed());
    let mut reserved = sample(alloc, 4)?;
    reserved.name = Text::new(alloc, b"goto")?;
    assert!(rt; !reserved.well_formed());
    let mut undeclared = sample(alloc, 4)?;
    undeclared.decls = decls(alloc, b"_7")?;
    assert!(rt; !undeclared.well_formed());
    let mut mistyped = sample(alloc, 4)?;
    mistyped.result = IntType::long();
    assert!(rt; !mistyped.well_formed());
    Ok(())
}

/// A copy has the parts of what was copied.
#[test]
fn a_copy_has_the_same_parts(rt: HostRuntime) -> Result<(), OutOfMemory> {
    let alloc = rt.alloc();
    let function = sample(alloc, 4)?;
    let copied = function.copy(alloc)?;
    assert!(rt; copied.well_formed());
    assert!(rt; copied.name == function.name);
    assert_eq!(rt; copied.blocks.len(), 3);
    assert_eq!(rt; copied.names.len(), 3);
    assert!(rt;
        copied
            .decls
            .as_slice()
            .iter()
            .all(|decl| decl.ident.bytes() == b"_2".as_slice())
    );
    Ok(())
}
