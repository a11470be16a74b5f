ghost use Rattle.std.specs.Prelude.{◌≡◌, [], ◌∷◌, IfOk, IsTrue};
ghost use Rattle.std.specs.List.{list_all};
ghost use Rattle.pm_wide.specs.Types.{unsigned_int_type};
ghost use Rattle.first_rewriting.specs.Typed.{IsTyped, block_agrees, row_agrees, stmt_agrees};

use first_patterns::{Row, Side};
use first_rewriting::{Firing, Site, What, simplify};
use gim_ast::{Block, End, Function, NameRow, Operands, Rhs, Stmt};
use pm_items::Items;
use pm_ops::{Code, OutOfMemory, Text};
use pm_wide::{IntType, Operand, Wide};
use std::alloc::Global;
use std::test::Fail;

/// `(simplify (bit_and @0 @0) @0)`.
const SAME_AND: Row = Row {
    at: 0,
    code: Code::BitAnd,
    same: true,
    result: Side::Left,
};

/// A name of type `unsigned int`.
fn name(version: u32) -> Operand
    ensures { result ≡ Operand.Name version unsigned_int_type }
{
    Operand::Name(version, IntType::unsigned_int())
}

/// A constant of type `unsigned int`.
fn constant(bits: u32) -> Operand
    ensures { result ≡ Operand.Const (record { bits = bits; ty = unsigned_int_type }) }
{
    Operand::Const(Wide::reduce(u128::from(bits), IntType::unsigned_int()))
}

/// `version = left code right;`.
fn assigned(alloc: Global, version: u32, code: Code, left: &Operand, right: &Operand) -> Stmt
    ensures { result ≡ record { name = version; rhs = Rhs.Op code (left.now ∷ right.now ∷ []) } }
{
    Stmt {
        name: version,
        rhs: Rhs::Op(code, Operands::two(alloc, *left, *right)),
    }
}

/// These rows of `names` and one more: the default definition of `x` where there is a base, and
/// else an anonymous name.
fn with_row(
    alloc: Global,
    rows: Items<NameRow>,
    version: u32,
    base: &[u8],
) -> Result<Items<NameRow>, OutOfMemory>
    requires { IsTrue (list_all (row_agrees (λ x. unsigned_int_type)) rows) }
    ensures { IfOk result (λ more. IsTrue (list_all (row_agrees (λ x. unsigned_int_type)) more)) }
{
    let mut rows = rows;
    rows.push(NameRow {
        version,
        base: Text::new(alloc, base)?,
        ty: IntType::unsigned_int(),
        initial: !base.is_empty(),
    })?;
    Ok(rows)
}

/// The two statements, and a return of `_3`.
fn blocks(alloc: Global, first: Stmt, second: Stmt) -> Result<Items<Block>, OutOfMemory>
    requires { IsTrue (list_all (stmt_agrees (λ x. unsigned_int_type)) (first ∷ second ∷ [])) }
    ensures { IfOk result (λ blocks. IsTrue
        (list_all (block_agrees (λ x. unsigned_int_type)) blocks)) }
{
    let mut stmts = Items::new(alloc);
    stmts.push(first)?;
    stmts.push(second)?;
    let mut blocks = Items::new(alloc);
    blocks.push(Block {
        number: 2,
        phis: Items::new(alloc),
        stmts,
        end: End::Return(name(3)),
    })?;
    Ok(blocks)
}

/// The function of `x_1(D)` with these two statements in its one block, which returns `_3`.
fn function(alloc: Global, first: Stmt, second: Stmt) -> Result<Function, OutOfMemory>
    requires { IsTrue (list_all (stmt_agrees (λ x. unsigned_int_type)) (first ∷ second ∷ [])) }
    ensures { IfOk result (λ f. IsTyped f) }
{
    let names = with_row(alloc, Items::new(alloc), 1, b"x")?;
    let names = with_row(alloc, names, 2, b"")?;
    let names = with_row(alloc, names, 3, b"")?;
    let blocks = blocks(alloc, first, second)?;
    Ok(Function {
        name: Text::new(alloc, b"f")?,
        result: IntType::unsigned_int(),
        params: Items::new(alloc),
        decls: Items::new(alloc),
        names,
        blocks,
    })
}

/// `_2 = x & x; _3 = _2 & _2;`.
#[tactic(auto, unfolding(pm_wide::specs::Typing::well_typed_operation))]
fn captures(alloc: Global) -> Result<Function, OutOfMemory>
    ensures { IfOk result (λ f. IsTyped f) }
{
    let first = assigned(alloc, 2, Code::BitAnd, &name(1), &name(1));
    let second = assigned(alloc, 3, Code::BitAnd, &name(2), &name(2));
    function(alloc, first, second)
}

/// `_2 = 4294967295u + 2u; _3 = _2 & x;`.
#[tactic(auto, unfolding(pm_wide::specs::Typing::well_typed_operation))]
fn constants(alloc: Global) -> Result<Function, OutOfMemory>
    ensures { IfOk result (λ f. IsTyped f) }
{
    let first = assigned(alloc, 2, Code::Plus, &constant(4_294_967_295), &constant(2));
    let second = assigned(alloc, 3, Code::BitAnd, &name(2), &name(1));
    function(alloc, first, second)
}

/// Whether the step was made at the statement of that name, for that reason.
fn told(firing: Option<&Firing>, version: u32, what: What) -> bool {
    match firing {
        Some(firing) => firing.subject == Site::Stmt(version) && firing.what == what,
        None => false,
    }
}

/// Whether the only block has so many statements, and returns that.
fn returns(function: &Function, stmts: usize, operand: &Operand) -> bool {
    match function.blocks.as_slice() {
        [block] => match &block.end {
            End::Return(given) => block.stmts.len() == stmts && given == operand,
            _ => false,
        },
        _ => false,
    }
}

/// Whether the first statement of the only block is this.
fn assigns(function: &Function, version: u32, code: Code, left: &Operand, right: &Operand) -> bool {
    match function.blocks.as_slice() {
        [block] => match block.stmts.get(0) {
            Some(stmt) => stmt.name == version && operation_is(&stmt.rhs, code, left, right),
            None => false,
        },
        _ => false,
    }
}

fn operation_is(rhs: &Rhs, code: Code, left: &Operand, right: &Operand) -> bool {
    match rhs {
        Rhs::Copy(_) => false,
        Rhs::Op(given, operands) => match operands.as_slice() {
            [a, b] => given.same(code) && a == left && b == right,
            _ => false,
        },
    }
}

#[test]
fn a_row_goes_through(rt: HostRuntime) -> Result<(), Fail> {
    let alloc = rt.alloc();
    let done = simplify(alloc, [SAME_AND].as_slice(), captures(alloc)?, 10)?;
    assert!(rt; returns(&done.function, 0, &name(1)));
    assert_eq!(rt; done.firings.len(), 2);
    assert!(rt; told(done.firings.get(0), 2, What::Row(1)));
    assert!(rt; told(done.firings.get(1), 3, What::Row(1)));
    assert!(rt; !done.exhausted);
    Ok(())
}

#[test]
fn a_fold_comes_before_a_swap(rt: HostRuntime) -> Result<(), Fail> {
    let alloc = rt.alloc();
    let done = simplify(alloc, [SAME_AND].as_slice(), constants(alloc)?, 10)?;
    assert!(rt; returns(&done.function, 1, &name(3)));
    assert!(rt; assigns(&done.function, 3, Code::BitAnd, &name(1), &constant(1)));
    assert_eq!(rt; done.firings.len(), 2);
    assert!(rt; told(done.firings.get(0), 2, What::Fold));
    assert!(rt; told(done.firings.get(1), 3, What::Swap));
    assert!(rt; !done.exhausted);
    Ok(())
}

#[test]
fn a_budget_ends_the_steps(rt: HostRuntime) -> Result<(), Fail> {
    let alloc = rt.alloc();
    let none = simplify(alloc, [SAME_AND].as_slice(), constants(alloc)?, 0)?;
    assert_eq!(rt; none.firings.len(), 0);
    assert!(rt; none.exhausted && returns(&none.function, 2, &name(3)));
    let one = simplify(alloc, [SAME_AND].as_slice(), constants(alloc)?, 1)?;
    assert_eq!(rt; one.firings.len(), 1);
    assert!(rt; told(one.firings.get(0), 2, What::Fold));
    assert!(rt; one.exhausted && returns(&one.function, 1, &name(3)));
    Ok(())
}
