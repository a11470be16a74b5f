//! Functions, valid and not: the first fault of each, and where their names are readable.
ghost use Rattle.std.specs.Prelude.{IfOk};
ghost use Rattle.std.specs.List.{AllByRecursion};
ghost use Rattle.gim_ast.specs.WellFormed.{IsWellFormed};

use gim_ast::Function;
use gim_reader::read;
use gim_ssa::{CheckFault, Reach, Reading, check};
use pm_ops::OutOfMemory;
use std::alloc::Global;
use std::test::Fail;

/// What stands before the blocks.
const HEAD: &str = "int __GIMPLE (ssa)\nf (int a)\n{\n  int x;\n";

/// One of two ways assigns what is returned where they join.
const ONE_WAY: &str = "\
    __BB(2): if (a_1(D) < 0) goto __BB3; else goto __BB4; \
    __BB(3): x_2 = a_1(D) + 1; goto __BB4; \
    __BB(4): return x_2;";

/// A phi of a loop takes its own name.
const LOOP: &str = "\
    __BB(2): x_2 = a_1(D) + a_1(D); goto __BB3; \
    __BB(3): x_3 = __PHI (__BB2: x_2, __BB3: x_3); if (a_1(D) < x_3) goto __BB3; else goto __BB4; \
    __BB(4): return x_3;";

/// In a loop a name is read before the statement that assigns it.
const EARLY: &str = "\
    __BB(2): goto __BB3; \
    __BB(3): x_2 = x_3 + 1; x_3 = a_1(D) + 1; if (x_2 < x_3) goto __BB3; else goto __BB4; \
    __BB(4): return x_2;";

/// Where no path leads, two names read each other.
const CIRCLE: &str = "\
    __BB(2): return a_1(D); \
    __BB(3): x_2 = x_3 + x_3; x_3 = x_2 + x_2; goto __BB3;";

/// A block that no path reaches reads a name, and jumps to where it is read.
const UNREACHED: &str = "\
    __BB(2): x_2 = a_1(D) + 1; goto __BB4; \
    __BB(3): x_3 = x_2 + 1; goto __BB4; \
    __BB(4): return x_2;";

/// A phi of a loop takes what the loop made of it, in a block behind it.
const COUNT: &str = "\
    __BB(2): goto __BB3; \
    __BB(3): x_2 = __PHI (__BB2: 0, __BB4: x_3); if (x_2 < a_1(D)) goto __BB4; else goto __BB5; \
    __BB(4): x_3 = x_2 + 1; goto __BB3; \
    __BB(5): return x_2;";

/// Blocks of valid functions.
const VALID: [&str; 9] = [
    LOOP,
    UNREACHED,
    COUNT,
    "__BB(2): return a_1(D);",
    // a jump leads back to the entry
    "__BB(2): x_2 = a_1(D) + 1; if (x_2 < 0) goto __BB2; else goto __BB3; \
     __BB(3): x_3 = x_2 + x_2; return x_3;",
    // each argument is read at the end of the block that it comes from
    "__BB(2): if (a_1(D) < 0) goto __BB3; else goto __BB4; \
     __BB(3): x_2 = a_1(D) + 1; goto __BB4; \
     __BB(4): x_3 = __PHI (__BB2: a_1(D), __BB3: x_2); return x_3;",
    // both ways assign what the phi takes, and the text has the join before them
    "__BB(2): if (a_1(D) < 0) goto __BB5; else goto __BB4; \
     __BB(3): x_2 = __PHI (__BB4: x_3, __BB5: x_4); return x_2; \
     __BB(4): x_3 = a_1(D) + 1; goto __BB3; \
     __BB(5): x_4 = a_1(D) + 2; goto __BB3;",
    // phis that take one another's names
    "__BB(2): goto __BB3; \
     __BB(3): x_2 = __PHI (__BB2: 0, __BB3: x_3); x_3 = __PHI (__BB2: 1, __BB3: x_2); \
     if (x_2 < a_1(D)) goto __BB3; else goto __BB4; \
     __BB(4): return x_3;",
    // where no path leads, what no path assigns is read
    "__BB(2): return a_1(D); \
     __BB(3): x_2 = x_3 + 1; goto __BB4; \
     __BB(4): x_3 = a_1(D) + 1; return x_2;",
];

/// Blocks with their first fault: a block, an item of it, and the name that isn't readable there.
const FAULTS: [(&str, u32, u32, u32); 11] = [
    (ONE_WAY, 4, 1, 2),
    (EARLY, 3, 1, 3),
    (CIRCLE, 3, 1, 3),
    // a statement, an end that returns and one that branches
    ("__BB(2): x_2 = x_3 + 1; x_3 = a_1(D); return x_2;", 2, 1, 3),
    (
        "__BB(2): goto __BB3; __BB(3): return x_2; __BB(4): x_2 = 1; goto __BB3;",
        3,
        1,
        2,
    ),
    (
        "__BB(2): if (a_1(D) < 0) goto __BB3; else goto __BB4; \
         __BB(3): x_2 = 1; x_3 = 2; goto __BB4; \
         __BB(4): x_4 = 3; if (x_4 < x_3) goto __BB3; else goto __BB4;",
        4,
        2,
        3,
    ),
    // of one item the operands come from left to right, whatever their versions
    (
        "__BB(2): x_2 = x_4 + x_3; x_3 = 1; x_4 = 2; return x_2;",
        2,
        1,
        4,
    ),
    // of several names the one whose use comes first, whatever their versions
    (
        "__BB(2): x_5 = a_1(D) + x_9; x_2 = x_3 + x_4; x_3 = 1; x_4 = 2; x_9 = 3; return x_5;",
        2,
        1,
        9,
    ),
    // a fault of a phi is in the phi's own block, and phis come before statements
    (
        "__BB(2): if (a_1(D) < 0) goto __BB3; else goto __BB4; \
         __BB(3): x_2 = a_1(D) + 1; goto __BB4; \
         __BB(4): x_3 = __PHI (__BB2: 0, __BB3: 1); x_4 = __PHI (__BB2: x_2, __BB3: a_1(D)); \
         x_5 = x_2 + 1; return x_4;",
        4,
        2,
        2,
    ),
    // behind the loop a name of its body isn't assigned on each path
    (
        "__BB(2): goto __BB3; \
         __BB(3): x_2 = __PHI (__BB2: 0, __BB4: x_3); if (x_2 < a_1(D)) goto __BB4; else goto __BB5; \
         __BB(4): x_3 = x_2 + 1; goto __BB3; \
         __BB(5): x_4 = x_2 + 1; x_5 = x_3 + 1; return x_5;",
        5,
        2,
        3,
    ),
    // the order is that of the text, not that of paths
    (
        "__BB(2): goto __BB4; \
         __BB(3): return x_3; \
         __BB(4): x_2 = x_5 + 1; goto __BB3; \
         __BB(6): x_3 = 1; x_5 = 2; goto __BB6;",
        3,
        1,
        3,
    ),
];

/// Names of functions, with the block and the item before which they are readable or not.
const READABLE: [(&str, u32, u32, u32, bool); 40] = [
    // a default definition is readable everywhere
    (LOOP, 1, 2, 1, true),
    (LOOP, 1, 2, 2, true),
    (LOOP, 1, 3, 1, true),
    (LOOP, 1, 3, 2, true),
    (LOOP, 1, 4, 1, true),
    // a name is readable behind its statement and where all ways passed it, before a phi too
    (LOOP, 2, 2, 1, false),
    (LOOP, 2, 2, 2, true),
    (LOOP, 2, 3, 1, true),
    (LOOP, 2, 3, 2, true),
    (LOOP, 2, 4, 1, true),
    // so is that of a phi
    (LOOP, 3, 2, 1, false),
    (LOOP, 3, 2, 2, false),
    (LOOP, 3, 3, 1, false),
    (LOOP, 3, 3, 2, true),
    (LOOP, 3, 4, 1, true),
    // what a loop made of a phi is stale where the phi was assigned anew, and some way lacks it
    (COUNT, 2, 3, 1, false),
    (COUNT, 2, 3, 2, true),
    (COUNT, 2, 4, 1, true),
    (COUNT, 2, 5, 1, true),
    (COUNT, 3, 3, 2, false),
    (COUNT, 3, 4, 1, false),
    (COUNT, 3, 4, 2, true),
    (COUNT, 3, 5, 1, false),
    // one of two ways doesn't do
    (ONE_WAY, 2, 3, 1, false),
    (ONE_WAY, 2, 3, 2, true),
    (ONE_WAY, 2, 4, 1, false),
    // in a function that isn't valid a name is stale behind the names that it reads
    (EARLY, 2, 3, 1, false),
    (EARLY, 2, 3, 2, true),
    (EARLY, 2, 3, 3, false),
    (EARLY, 2, 4, 1, false),
    (EARLY, 3, 3, 2, false),
    (EARLY, 3, 3, 3, true),
    (EARLY, 3, 4, 1, true),
    // where no path leads, what isn't in its own support is readable
    (CIRCLE, 1, 3, 1, true),
    (CIRCLE, 2, 3, 1, false),
    (CIRCLE, 2, 3, 2, false),
    (CIRCLE, 3, 3, 3, false),
    (UNREACHED, 2, 3, 1, true),
    (UNREACHED, 3, 3, 1, true),
    // a jump from there takes nothing away, and gives nothing
    (UNREACHED, 3, 4, 1, false),
];

/// The functions of a file whose one function has these blocks.
fn functions(alloc: Global, blocks: &str) -> Result<Vec<Function>, Fail>
    ensures { IfOk result (λ fs. AllByRecursion IsWellFormed fs.items) }
{
    let mut bytes = Vec::new(alloc);
    for part in [HEAD, blocks, "}\n"] {
        bytes.extend_from_slice(part.as_bytes())?;
    }
    Ok(read(alloc, bytes.as_slice())?)
}

/// The fault of a name that isn't readable.
fn not_readable(block: u32, item: u32, name: u32) -> CheckFault {
    CheckFault::NotReadable { block, item, name }
}

/// What the check says of the function of these blocks; a fault at block 0 if there are more.
fn checked(alloc: Global, blocks: &str) -> Result<Result<(), CheckFault>, Fail> {
    let functions = functions(alloc, blocks)?;
    match functions.as_slice() {
        [function] => Ok(check(alloc, function)),
        _ => Ok(Err(not_readable(0, 0, 0))),
    }
}

#[test]
fn valid_functions_pass(rt: HostRuntime) -> Result<(), Fail> {
    for blocks in &VALID {
        assert_eq!(rt; checked(rt.alloc(), blocks)?, Ok(()), "{blocks}");
    }
    Ok(())
}

#[test]
fn the_first_use_that_is_not_readable_is_named(rt: HostRuntime) -> Result<(), Fail> {
    for (blocks, block, item, name) in &FAULTS {
        let fault = not_readable(*block, *item, *name);
        assert_eq!(rt; checked(rt.alloc(), blocks)?, Err(fault), "{blocks}");
    }
    Ok(())
}

#[test]
fn faults_are_told(rt: HostRuntime) -> Result<(), Fail> {
    let fault = not_readable(4, 1, 2);
    let told = format!(in rt.alloc(); "{fault}")?;
    assert_eq!(rt;
        told.as_str(),
        "the name 2 is not readable in item 1 of block 4"
    );
    Ok(())
}

/// Whether a name is readable just before an item, as the tables of all names say and as those of
/// one name do. Nothing, if these differ.
fn told_twice(
    alloc: Global,
    function: &Function,
    name: u32,
    block: u32,
    item: u32,
) -> Result<Option<bool>, OutOfMemory>
    requires { IsWellFormed function.now }
{
    let reach = Reach::build(alloc, function)?;
    let by_all = reach.readable(name, block, item);
    let mut reading = Reading::new(alloc, function)?;
    let by_one = reading.readable(name, block, (item as usize).saturating_sub(1))?;
    Ok((by_all == by_one).then_some(by_all))
}

/// Whether a name of the function of these blocks is readable just before an item. Nothing, if it
/// isn't told alike twice, or there are more functions.
fn is_readable(
    alloc: Global,
    blocks: &str,
    name: u32,
    block: u32,
    item: u32,
) -> Result<Option<bool>, Fail> {
    let functions = functions(alloc, blocks)?;
    match functions.as_slice() {
        [function] => Ok(told_twice(alloc, function, name, block, item)?),
        _ => Ok(None),
    }
}

#[test]
fn names_are_readable_where_they_hold_their_values(rt: HostRuntime) -> Result<(), Fail> {
    for (blocks, name, block, item, told) in &READABLE {
        let found = is_readable(rt.alloc(), blocks, *name, *block, *item)?;
        assert_eq!(rt;
            found,
            Some(*told),
            "{name} before item {item} of {block}: {blocks}"
        );
    }
    Ok(())
}
