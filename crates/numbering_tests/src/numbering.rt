//! Functions, the merges that are made in each, and the function that is left.
ghost use Rattle.std.specs.Prelude.{IfOk};
ghost use Rattle.std.specs.List.{AllByRecursion};
ghost use Rattle.gim_ast.specs.WellFormed.{IsWellFormed};

use gim_ast::Function;
use gim_printer::print;
use gim_reader::read;
use gim_ssa::check;
use pm_items::Items;
use std::alloc::Global;
use std::process::Abort;
use std::test::Fail;
use value_numbers::{Numbered, number};

/// What stands before the blocks. `x` and `y` are of one type.
const HEAD: &str =
    "int __GIMPLE (ssa)\nf (int a, int b, short s)\n{\n  int x;\n  int y;\n  long z;\n  _Bool c;\n  int _30;\n  int _31;\n";

/// Blocks, the merges that are made, each the name that goes and the one that stands for it, and
/// the blocks that are left.
type Row = (&'static str, &'static [(u32, u32)], &'static str);

/// Merges in one block.
const STRAIGHT: [Row; 6] = [
    // two equal sums
    (
        "__BB(2): x_3 = a_1(D) + b_2(D); x_4 = a_1(D) + b_2(D); x_5 = x_3 * x_4; return x_5;",
        &[(4, 3)],
        "__BB(2): x_3 = a_1(D) + b_2(D); x_5 = x_3 * x_3; return x_5;",
    ),
    // merges make further right sides equal
    (
        "__BB(2): x_3 = a_1(D) + 1; x_4 = a_1(D) + 1; x_5 = x_3 * 2; x_6 = x_4 * 2; \
         x_7 = x_5 - x_6; x_8 = x_6 - x_5; x_9 = x_7 ^ x_8; return x_9;",
        &[(4, 3), (6, 5), (8, 7)],
        "__BB(2): x_3 = a_1(D) + 1; x_5 = x_3 * 2; x_7 = x_5 - x_5; x_9 = x_7 ^ x_7; return x_9;",
    ),
    // the first statement first, and a name that stands further down isn't readable yet
    (
        "__BB(2): x_9 = a_1(D) & b_2(D); x_5 = a_1(D) & b_2(D); x_7 = a_1(D) & b_2(D); \
         x_3 = a_1(D) & b_2(D); x_4 = x_5 + x_7; x_6 = x_9 + x_3; x_8 = x_4 * x_6; return x_8;",
        &[(5, 9), (7, 9), (3, 9), (6, 4)],
        "__BB(2): x_9 = a_1(D) & b_2(D); x_4 = x_9 + x_9; x_8 = x_4 * x_4; return x_8;",
    ),
    // copies count as any right side, and none is looked through; the other's base stands then
    (
        "__BB(2): x_3 = a_1(D); y_4 = a_1(D); y_5 = 7; x_6 = 7; x_7 = x_3 + 1; x_8 = a_1(D) + 1; \
         x_9 = y_4 + 1; return x_6;",
        &[(4, 3), (6, 5), (9, 7)],
        "__BB(2): x_3 = a_1(D); y_5 = 7; x_7 = x_3 + 1; x_8 = a_1(D) + 1; return y_5;",
    ),
    // equal right sides of two types
    (
        "__BB(2): x_3 = (int) s_20(D); z_4 = (long) s_20(D); y_5 = (int) s_20(D); \
         z_6 = (long) s_20(D); z_7 = z_4 + z_6; x_8 = (int) z_7; x_9 = x_8 + y_5; return x_9;",
        &[(5, 3), (6, 4)],
        "__BB(2): x_3 = (int) s_20(D); z_4 = (long) s_20(D); z_7 = z_4 + z_4; \
         x_8 = (int) z_7; x_9 = x_8 + x_3; return x_9;",
    ),
    // anonymous names stay declared, and default definitions stay
    (
        "__BB(2): _30 = a_1(D) + 1; _31 = a_1(D) + 1; c_3 = b_2(D) < _31; c_4 = b_2(D) < _30; \
         x_5 = c_3 ? _30 : b_2(D); x_6 = c_4 ? _31 : b_2(D); return x_6;",
        &[(31, 30), (4, 3), (6, 5)],
        "__BB(2): _30 = a_1(D) + 1; c_3 = b_2(D) < _30; x_5 = c_3 ? _30 : b_2(D); return x_5;",
    ),
];

/// Merges across blocks.
const BLOCKS: [Row; 9] = [
    // on two ways what was computed before them; the phi stays, whatever its arguments are then
    (
        "__BB(2): x_3 = a_1(D) + b_2(D); if (x_3 < 0) goto __BB3; else goto __BB4; \
         __BB(3): x_4 = a_1(D) + b_2(D); goto __BB5; \
         __BB(4): x_5 = a_1(D) + b_2(D); goto __BB5; \
         __BB(5): x_6 = __PHI (__BB3: x_4, __BB4: x_5); return x_6;",
        &[(4, 3), (5, 3)],
        "__BB(2): x_3 = a_1(D) + b_2(D); if (x_3 < 0) goto __BB3; else goto __BB4; \
         __BB(3): goto __BB5; \
         __BB(4): goto __BB5; \
         __BB(5): x_6 = __PHI (__BB3: x_3, __BB4: x_3); return x_6;",
    ),
    // the name that is taken stands further down in the text
    (
        "__BB(2): goto __BB4; \
         __BB(3): x_3 = a_1(D) + b_2(D); return x_3; \
         __BB(4): x_4 = a_1(D) + b_2(D); goto __BB3;",
        &[(3, 4)],
        "__BB(2): goto __BB4; \
         __BB(3): return x_4; \
         __BB(4): x_4 = a_1(D) + b_2(D); goto __BB3;",
    ),
    // of two readable candidates the least version, though it goes itself then
    (
        "__BB(2): goto __BB5; \
         __BB(3): x_8 = a_1(D) * b_2(D); x_9 = x_8 + x_4; return x_9; \
         __BB(5): x_7 = a_1(D) * b_2(D); goto __BB6; \
         __BB(6): x_4 = a_1(D) * b_2(D); goto __BB3;",
        &[(8, 4), (4, 7)],
        "__BB(2): goto __BB5; \
         __BB(3): x_9 = x_7 + x_7; return x_9; \
         __BB(5): x_7 = a_1(D) * b_2(D); goto __BB6; \
         __BB(6): goto __BB3;",
    ),
    // a lesser version that isn't on every path is none
    (
        "__BB(2): y_9 = a_1(D) - b_2(D); if (y_9 < 0) goto __BB3; else goto __BB4; \
         __BB(3): x_5 = a_1(D) - b_2(D); return x_5; \
         __BB(4): x_4 = a_1(D) - b_2(D); goto __BB3;",
        &[(5, 9), (4, 9)],
        "__BB(2): y_9 = a_1(D) - b_2(D); if (y_9 < 0) goto __BB3; else goto __BB4; \
         __BB(3): return y_9; \
         __BB(4): goto __BB3;",
    ),
    // a merge makes an earlier statement equal to one further down that is readable there
    (
        "__BB(2): goto __BB4; \
         __BB(3): x_3 = x_6 + a_1(D); x_9 = x_3 * x_3; return x_9; \
         __BB(4): x_6 = a_1(D) + a_1(D); x_7 = a_1(D) + a_1(D); x_5 = x_7 + a_1(D); goto __BB3;",
        &[(7, 6), (3, 5)],
        "__BB(2): goto __BB4; \
         __BB(3): x_9 = x_5 * x_5; return x_9; \
         __BB(4): x_6 = a_1(D) + a_1(D); x_5 = x_6 + a_1(D); goto __BB3;",
    ),
    // in a loop and behind it what was computed before
    (
        "__BB(2): x_3 = a_1(D) + b_2(D); goto __BB3; \
         __BB(3): x_4 = __PHI (__BB2: x_3, __BB3: x_6); x_5 = a_1(D) + b_2(D); x_6 = x_4 + x_5; \
         if (x_6 < b_2(D)) goto __BB3; else goto __BB4; \
         __BB(4): x_7 = x_4 + x_3; x_8 = x_7 - x_6; return x_8;",
        &[(5, 3), (7, 6)],
        "__BB(2): x_3 = a_1(D) + b_2(D); goto __BB3; \
         __BB(3): x_4 = __PHI (__BB2: x_3, __BB3: x_6); x_6 = x_4 + x_3; \
         if (x_6 < b_2(D)) goto __BB3; else goto __BB4; \
         __BB(4): x_8 = x_6 - x_6; return x_8;",
    ),
    // arguments of phis and conditions are uses
    (
        "__BB(2): goto __BB3; \
         __BB(3): x_4 = __PHI (__BB2: 0, __BB3: x_6); x_5 = x_4 + 1; x_6 = x_4 + 1; \
         if (x_6 < a_1(D)) goto __BB3; else goto __BB4; \
         __BB(4): return x_6;",
        &[(6, 5)],
        "__BB(2): goto __BB3; \
         __BB(3): x_4 = __PHI (__BB2: 0, __BB3: x_5); x_5 = x_4 + 1; \
         if (x_5 < a_1(D)) goto __BB3; else goto __BB4; \
         __BB(4): return x_5;",
    ),
    // where no path leads, what the rest of the function assigns is readable
    (
        "__BB(2): x_3 = a_1(D) + b_2(D); return x_3; \
         __BB(3): x_5 = a_1(D) + b_2(D); x_4 = a_1(D) + b_2(D); x_6 = x_5 * x_4; goto __BB3;",
        &[(5, 3), (4, 3)],
        "__BB(2): x_3 = a_1(D) + b_2(D); return x_3; \
         __BB(3): x_6 = x_3 * x_3; goto __BB3;",
    ),
    // there so is what stands further down
    (
        "__BB(2): return a_1(D); \
         __BB(3): x_5 = a_1(D) + b_2(D); x_4 = a_1(D) + b_2(D); x_6 = x_5 * x_4; goto __BB3;",
        &[(5, 4)],
        "__BB(2): return a_1(D); \
         __BB(3): x_4 = a_1(D) + b_2(D); x_6 = x_4 * x_4; goto __BB3;",
    ),
];

/// Blocks that stay as they are.
const UNCHANGED: [&str; 8] = [
    // of two ways neither name is readable on the other, nor where they join
    "__BB(2): if (a_1(D) < b_2(D)) goto __BB3; else goto __BB4; \
     __BB(3): x_3 = a_1(D) + b_2(D); goto __BB5; \
     __BB(4): x_4 = a_1(D) + b_2(D); goto __BB5; \
     __BB(5): x_5 = __PHI (__BB3: x_3, __BB4: x_4); x_6 = a_1(D) + b_2(D); x_7 = x_5 - x_6; \
     return x_7;",
    // nor is one of one way where they join
    "__BB(2): if (a_1(D) < b_2(D)) goto __BB3; else goto __BB4; \
     __BB(3): x_3 = a_1(D) + b_2(D); goto __BB4; \
     __BB(4): x_4 = a_1(D) + b_2(D); return x_4;",
    // behind a loop its body wasn't passed on every path
    "__BB(2): goto __BB3; \
     __BB(3): x_3 = __PHI (__BB2: 0, __BB4: x_5); if (x_3 < a_1(D)) goto __BB4; else goto __BB5; \
     __BB(4): x_5 = x_3 + 1; goto __BB3; \
     __BB(5): x_6 = x_3 + 1; return x_6;",
    // nothing is exchanged, and another operation or number is another right side
    "__BB(2): x_3 = a_1(D) + b_2(D); x_4 = b_2(D) + a_1(D); x_5 = a_1(D) - b_2(D); \
     x_6 = a_1(D) + 1; x_7 = a_1(D) + 2; x_8 = -a_1(D); x_9 = ~a_1(D); return x_3;",
    // one operand and two types; one number and two types
    "__BB(2): x_3 = (int) s_20(D); z_4 = (long) s_20(D); z_5 = 5l; x_6 = 5; x_7 = (int) 5; \
     x_8 = (int) 5l; return x_3;",
    // a parameter is no name that a statement assigns, and copies aren't looked through
    "__BB(2): x_3 = a_1(D); x_4 = x_3; x_5 = x_4; return x_5;",
    // phis are no statements
    "__BB(2): if (a_1(D) < b_2(D)) goto __BB3; else goto __BB4; \
     __BB(3): goto __BB4; \
     __BB(4): x_3 = __PHI (__BB2: a_1(D), __BB3: b_2(D)); \
     x_4 = __PHI (__BB2: a_1(D), __BB3: b_2(D)); x_5 = x_3 - x_4; return x_5;",
    "__BB(2): return 0;",
];

/// The functions of a file whose one function has these blocks.
fn functions(alloc: Global, blocks: &str) -> Result<Vec<Function>, Fail>
    ensures { IfOk result (λ fs. AllByRecursion IsWellFormed fs.items) }
{
    let mut bytes = Vec::new(alloc);
    for part in [HEAD, blocks, "}\n"] {
        bytes.extend_from_slice(part.as_bytes())?;
    }
    Ok(read(alloc, bytes.as_slice())?)
}

/// The text of functions.
#[tactic(auto, using(gim_ast::proofs::RisingNames::all_rise_where_well_formed))]
fn printed(alloc: Global, functions: &[Function]) -> Result<Vec<u8>, Fail>
    requires { AllByRecursion IsWellFormed functions.now }
{
    Ok(print(alloc, functions)?)
}

/// A function alone in a list, its values numbered, and the merges.
fn number_one(
    alloc: Global,
    function: &Function,
) -> Result<(Vec<Function>, Items<(u32, u32)>), Fail>
    requires { IsWellFormed function.now }
    ensures { IfOk result (λ made. AllByRecursion IsWellFormed made.0.items) }
{
    check(alloc, function)?;
    let Numbered { function, merges } = number(alloc, function.copy(alloc)?)?;
    let mut functions = Vec::new(alloc);
    functions.push(function)?;
    Ok((functions, merges))
}

/// Numbers the values of the function of these blocks, and compares the merges and what is left.
fn compare(
    rt: &(impl Abort + AllocGlobal),
    blocks: &str,
    merges: &[(u32, u32)],
    left: &str,
) -> Result<(), Fail> {
    let alloc = rt.alloc();
    let before = functions(alloc, blocks)?;
    let expected = functions(alloc, left)?;
    match before.as_slice() {
        [function] => {
            let (after, made) = number_one(alloc, function)?;
            assert!(rt; made.as_slice() == merges, "{blocks}");
            let text = printed(alloc, after.as_slice())?;
            let wanted = printed(alloc, expected.as_slice())?;
            assert!(rt; text.as_slice() == wanted.as_slice(), "{blocks}");
        }
        _ => assert!(rt; false, "{blocks}"),
    }
    Ok(())
}

fn compare_all(rt: &(impl Abort + AllocGlobal), rows: &[Row]) -> Result<(), Fail> {
    for (blocks, merges, left) in rows {
        compare(rt, blocks, merges, left)?;
    }
    Ok(())
}

#[test]
fn statements_of_one_block_are_merged(rt: HostRuntime) -> Result<(), Fail> {
    compare_all(&rt, STRAIGHT.as_slice())
}

#[test]
fn statements_of_several_blocks_are_merged(rt: HostRuntime) -> Result<(), Fail> {
    compare_all(&rt, BLOCKS.as_slice())
}

#[test]
fn statements_that_differ_stay(rt: HostRuntime) -> Result<(), Fail> {
    for blocks in &UNCHANGED {
        compare(&rt, blocks, &[], blocks)?;
    }
    Ok(())
}
