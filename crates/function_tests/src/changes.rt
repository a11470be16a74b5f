//! Changes of a small function, one after another.
use gim_ast::{Block, Decl, End, Function, NameRow, Operands, Rhs, Stmt};
use gim_changes::{has_place, insert_stmt, prune, put_in_all, set_condition, set_rhs, tidy, trim};
use pm_items::Items;
use pm_ops::{Code, OutOfMemory, Text};
use pm_wide::{IntType, Operand};
use std::alloc::Global;

/// A use of a name of type int.
fn x(version: u32) -> Operand {
    Operand::Name(version, IntType::int())
}

/// A row of the name `x_VERSION`.
fn row(alloc: Global, version: u32, initial: bool) -> Result<NameRow, OutOfMemory> {
    Ok(NameRow {
        version,
        base: Text::new(alloc, b"x")?,
        ty: IntType::int(),
        initial,
    })
}

/// A block without phis.
fn block(alloc: Global, number: u32, stmts: Items<Stmt>, end: End) -> Block {
    Block {
        number,
        phis: Items::new(alloc),
        stmts,
        end,
    }
}

/// `x_VERSION = left + right;`
fn sum(alloc: Global, version: u32, left: u32, right: u32) -> Stmt {
    Stmt {
        name: version,
        rhs: Rhs::Op(Code::Plus, Operands::two(alloc, x(left), x(right))),
    }
}

/// A sum, a copy of it that the condition and the return use, and a sum that nothing uses.
fn sample(alloc: Global) -> Result<Function, OutOfMemory> {
    let mut stmts = Items::new(alloc);
    stmts.push(sum(alloc, 2, 1, 1))?;
    stmts.push(Stmt {
        name: 3,
        rhs: Rhs::Copy(x(2)),
    })?;
    stmts.push(sum(alloc, 4, 3, 3))?;
    let condition = End::If(Code::Lt, x(3), x(1), 3, 3);
    let mut blocks = Items::new(alloc);
    blocks.push(block(alloc, 2, stmts, condition))?;
    blocks.push(block(alloc, 3, Items::new(alloc), End::Return(x(3))))?;
    let mut params = Items::new(alloc);
    params.push(Decl {
        ident: Text::new(alloc, b"x")?,
        ty: IntType::int(),
    })?;
    let mut names = Items::new(alloc);
    names.push(row(alloc, 1, true)?)?;
    names.push(row(alloc, 2, false)?)?;
    names.push(row(alloc, 3, false)?)?;
    names.push(row(alloc, 4, false)?)?;
    Ok(Function {
        name: Text::new(alloc, b"f")?,
        result: IntType::int(),
        params,
        decls: Items::new(alloc),
        names,
        blocks,
    })
}

/// How many statements the first block has.
fn first_len(function: &Function) -> usize {
    function.blocks.get(0).map_or(0, |block| block.stmts.len())
}

/// Whether the second statement of the first block assigns the name.
fn stands_second(function: &Function, name: u32) -> bool {
    match function.blocks.get(0) {
        Some(block) => block.stmts.get(1).map_or(false, |stmt| stmt.name == name),
        None => false,
    }
}

/// What was put for a name is used, and the copy goes with what is unused.
#[test]
fn a_copy_goes_once_its_operand_is_put_for_it(rt: HostRuntime) -> Result<(), OutOfMemory> {
    let alloc = rt.alloc();
    let mut function = sample(alloc)?;
    assert!(rt; function.well_formed());
    put_in_all(&mut function, 3, &x(2));
    assert!(rt; !function.uses(3));
    assert!(rt; function.assigns(3));
    prune(&mut function);
    assert_eq!(rt; first_len(&function), 1);
    assert_eq!(rt; function.names.len(), 4);
    trim(&mut function);
    assert_eq!(rt; function.names.len(), 2);
    assert!(rt; function.well_formed());
    Ok(())
}

/// Another right side and another condition stand where the old ones stood.
#[test]
fn right_sides_and_conditions_are_set(rt: HostRuntime) -> Result<(), OutOfMemory> {
    let alloc = rt.alloc();
    let mut function = sample(alloc)?;
    set_condition(&mut function, 2, Code::Ne, &x(1), &x(1));
    set_rhs(alloc, &mut function, 3, Code::Mult, &x(1), &x(1));
    assert!(rt; function.uses(3));
    tidy(&mut function);
    assert_eq!(rt; first_len(&function), 1);
    assert_eq!(rt; function.names.len(), 2);
    assert!(rt; function.uses(3));
    Ok(())
}

/// A statement stands before the one that had its place, with its declaration and its row.
#[test]
fn a_statement_is_inserted_before_another(rt: HostRuntime) -> Result<(), OutOfMemory> {
    let alloc = rt.alloc();
    let mut function = sample(alloc)?;
    let decl = Decl {
        ident: Text::new(alloc, b"_9")?,
        ty: IntType::int(),
    };
    assert!(rt; has_place(&function, 0, 1));
    assert!(rt; !has_place(&function, 2, 0));
    insert_stmt(alloc, &mut function, 0, 1, sum(alloc, 9, 2, 1), decl)?;
    assert!(rt; function.well_formed());
    assert_eq!(rt; first_len(&function), 4);
    assert!(rt; stands_second(&function, 9));
    assert_eq!(rt; function.names.len(), 5);
    assert_eq!(rt; function.decls.len(), 1);
    Ok(())
}
