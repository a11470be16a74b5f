//! Types of trees over one small text. The trees are written out; their places are found in it.

use gim_text::{
    ArgText, BlockText, DeclText, EndText, FunctionText, GimpleFault, GimpleKind, ItemText,
    LiteralText, LiteralType, OperandText, RightForm, RightText,
};
use gim_typing::check_types;
use pm_items::Items;
use pm_ops::{Code, OutOfMemory};
use pm_places::Span;
use pm_wide::IntType;
use std::alloc::Global;
use std::process::Abort;
use std::test::Fail;

/// The lines from which the trees of the tests are taken: the head, and statements and ends that
/// fit or don't.
const SOURCE: &str = "long __GIMPLE (ssa) f (int x, long y)
{
  int _2;
  long _3;
  _Bool _4;
  int z;
  int _7;
  long x_8;
  __BB(2):
  __BB(30):
  _2 = __PHI (__BB4: x_1(D), __BB5: y_5(D));
  _2 = __PHI (__BB6: _2, __BB7: 9);
  _2 = -5;
  _3 = -5;
  _2 = - _Literal (int) 5;
  _3 = ~ _Literal (int) 5;
  _2 = x_1(D) + y_5(D);
  _3 = y_5(D) + x_1(D);
  _2 = x_1(D) << y_5(D);
  _3 = (long) x_1(D);
  _2 = (long) x_1(D);
  _4 = x_1(D) < 7;
  _2 = x_1(D) < 7;
  _4 = x_1(D) < y_5(D);
  _2 = _4 ? x_1(D) : 7;
  _2 = x_1(D) ? x_1(D) : x_1(D);
  _2 = z_9;
  _3 = z_9;
  if (x_1(D) < 7) goto __BB2; else goto __BB30;
  if (-7 < y_5(D)) goto __BB2; else goto __BB30;
  return 5;
  return _Literal (long) 5;
  return z_9;
  return y_5(D);
  goto __BB30;
}
";

/// The place of a word in a line of the text.
fn at(line: &str, word: &str) -> Span {
    let from = SOURCE
        .find(line)
        .unwrap_or(0)
        .saturating_add(line.find(word).unwrap_or(0));
    Span {
        from,
        to: from.saturating_add(word.len()),
    }
}

fn decl(ty: IntType, line: &str, ident: &str) -> DeclText {
    let ident = at(line, ident);
    DeclText { ty, ident }
}

fn name(line: &str, word: &str) -> OperandText {
    OperandText::Name(at(line, word))
}

fn initial(line: &str, word: &str) -> OperandText {
    OperandText::Default(at(line, word))
}

/// `x_1(D)`
fn x() -> OperandText {
    initial("x_1(D)", "x_1")
}

/// `y_5(D)`
fn y() -> OperandText {
    initial("y_5(D)", "y_5")
}

/// `7`
fn seven() -> OperandText {
    literal("< 7", "7", LiteralType::Plain, "7")
}

/// A number with its first token.
fn literal(line: &str, start: &str, ty: LiteralType, number: &str) -> OperandText {
    OperandText::Literal(LiteralText {
        start: at(line, start),
        ty,
        negative: start == "-",
        number: at(line, number),
    })
}

/// The statement of a line.
fn stmt(line: &str, assigned: &str, start: &str, form: RightForm) -> ItemText {
    let start = at(line, start);
    ItemText::Stmt(at(line, assigned), RightText { start, form })
}

/// An argument of a phi.
fn arg(line: &str, from: &str, operand: OperandText) -> ArgText {
    ArgText {
        from: at(line, from),
        operand,
    }
}

/// The phi of a line, with these arguments.
fn phi(alloc: Global, line: &str, args: &[ArgText]) -> Result<ItemText, OutOfMemory> {
    Ok(ItemText::Phi(at(line, "_2"), Items::from_slice(alloc, args)?))
}

/// The block of a line.
fn block(line: &str, number: &str, items: Items<ItemText>, end: Option<EndText>) -> BlockText {
    BlockText {
        head: at(line, "__BB"),
        number: at(line, number),
        items,
        end,
    }
}

/// The function of these blocks.
fn tree(alloc: Global, blocks: Items<BlockText>) -> Result<FunctionText, OutOfMemory> {
    let params = [
        decl(IntType::int(), "int x", "x"),
        decl(IntType::long(), "long y", "y"),
    ];
    let decls = [
        decl(IntType::int(), "int _2", "_2"),
        decl(IntType::long(), "long _3", "_3"),
        decl(IntType::boolean(), "_Bool _4", "_4"),
        decl(IntType::int(), "int z", "z"),
        decl(IntType::int(), "int _7", "_7"),
        decl(IntType::long(), "long x_8", "x_8"),
    ];
    Ok(FunctionText {
        result: IntType::long(),
        name: at(" f ", "f"),
        params: Items::from_slice(alloc, &params)?,
        decls: Items::from_slice(alloc, &decls)?,
        blocks,
        close: at("}", "}"),
    })
}

/// The file of one function of one block.
fn file(
    alloc: Global,
    items: Items<ItemText>,
    end: Option<EndText>,
) -> Result<Items<FunctionText>, OutOfMemory> {
    let mut blocks = Items::new(alloc);
    blocks.push(block("__BB(2)", "2", items, end))?;
    let mut file = Items::new(alloc);
    let tree = tree(alloc, blocks)?;
    file.push(tree)?;
    Ok(file)
}

/// Looks that the types of a file fit, or that the first mismatch stands at this place.
fn judge(
    rt: &(impl Abort + AllocGlobal),
    line: &str,
    file: &Items<FunctionText>,
    mismatch: Option<Span>,
) {
    let answer = check_types(rt.alloc(), SOURCE.as_bytes(), file.as_slice());
    match mismatch {
        Some(place) => {
            let want = GimpleFault::at(GimpleKind::TypeMismatch, place);
            assert!(rt; answer == Err(want), "{line}");
        }
        None => assert!(rt; answer.is_ok(), "{line}"),
    }
}

/// Judges a statement, which fits or has its mismatch where its right side starts.
fn judge_stmt(
    rt: &(impl Abort + AllocGlobal),
    line: &str,
    assigned: &str,
    start: &str,
    form: RightForm,
    fits: bool,
) -> Result<(), OutOfMemory> {
    let mut items = Items::new(rt.alloc());
    items.push(stmt(line, assigned, start, form))?;
    let file = file(rt.alloc(), items, None)?;
    judge(
        rt,
        line,
        &file,
        if fits { None } else { Some(at(line, start)) },
    );
    Ok(())
}

/// Judges an end, which fits or has its mismatch at this token.
fn judge_end(
    rt: &(impl Abort + AllocGlobal),
    line: &str,
    end: EndText,
    mismatch: Option<&str>,
) -> Result<(), OutOfMemory> {
    let file = file(rt.alloc(), Items::new(rt.alloc()), Some(end))?;
    let place = match mismatch {
        Some(token) => Some(at(line, token)),
        None => None,
    };
    judge(rt, line, &file, place);
    Ok(())
}

#[test]
fn constants_and_unary_operations(rt: HostRuntime) -> Result<(), Fail> {
    let line = "_2 = -5;";
    let five = literal(line, "-", LiteralType::Plain, "5");
    judge_stmt(&rt, line, "_2", "-", RightForm::Copy(five), true)?;
    let line = "_3 = -5;";
    let five = literal(line, "-", LiteralType::Plain, "5");
    judge_stmt(&rt, line, "_3", "-", RightForm::Copy(five), false)?;
    let line = "_2 = - _Literal (int) 5;";
    let five = literal(line, "_Literal", LiteralType::Written(IntType::int()), "5");
    judge_stmt(
        &rt,
        line,
        "_2",
        "-",
        RightForm::Unary(Code::Negate, five),
        true,
    )?;
    let line = "_3 = ~ _Literal (int) 5;";
    let five = literal(line, "_Literal", LiteralType::Written(IntType::int()), "5");
    judge_stmt(
        &rt,
        line,
        "_3",
        "~",
        RightForm::Unary(Code::BitNot, five),
        false,
    )?;
    Ok(())
}

#[test]
fn sums_and_shifts(rt: HostRuntime) -> Result<(), Fail> {
    let sum = RightForm::Binary(Code::Plus, x(), y());
    judge_stmt(&rt, "_2 = x_1(D) + y_5(D);", "_2", "x_1", sum, false)?;
    let sum = RightForm::Binary(Code::Plus, y(), x());
    judge_stmt(&rt, "_3 = y_5(D) + x_1(D);", "_3", "y_5", sum, false)?;
    let shifted = RightForm::Binary(Code::Lshift, x(), y());
    judge_stmt(&rt, "_2 = x_1(D) << y_5(D);", "_2", "x_1", shifted, true)?;
    Ok(())
}

#[test]
fn comparisons(rt: HostRuntime) -> Result<(), Fail> {
    let below = RightForm::Binary(Code::Lt, x(), seven());
    judge_stmt(&rt, "_4 = x_1(D) < 7;", "_4", "x_1", below, true)?;
    let below = RightForm::Binary(Code::Lt, x(), seven());
    judge_stmt(&rt, "_2 = x_1(D) < 7;", "_2", "x_1", below, false)?;
    let below = RightForm::Binary(Code::Lt, x(), y());
    judge_stmt(&rt, "_4 = x_1(D) < y_5(D);", "_4", "x_1", below, false)?;
    Ok(())
}

#[test]
fn choices(rt: HostRuntime) -> Result<(), Fail> {
    let line = "_2 = _4 ? x_1(D) : 7;";
    let choice = RightForm::Choice(name(line, "_4"), x(), seven());
    judge_stmt(&rt, line, "_2", "_4", choice, true)?;
    let line = "_2 = x_1(D) ? x_1(D) : x_1(D);";
    let choice = RightForm::Choice(x(), x(), x());
    judge_stmt(&rt, line, "_2", "x_1", choice, false)?;
    Ok(())
}

#[test]
fn copies_and_casts(rt: HostRuntime) -> Result<(), Fail> {
    let line = "_2 = z_9;";
    judge_stmt(
        &rt,
        line,
        "_2",
        "z_9",
        RightForm::Copy(name(line, "z_9")),
        true,
    )?;
    let line = "_3 = z_9;";
    judge_stmt(
        &rt,
        line,
        "_3",
        "z_9",
        RightForm::Copy(name(line, "z_9")),
        false,
    )?;
    let line = "_3 = (long) x_1(D);";
    let cast = RightForm::Cast(IntType::long(), x());
    judge_stmt(&rt, line, "_3", "(", cast, true)?;
    let line = "_2 = (long) x_1(D);";
    let cast = RightForm::Cast(IntType::long(), x());
    judge_stmt(&rt, line, "_2", "(", cast, false)?;
    Ok(())
}

#[test]
fn ends(rt: HostRuntime) -> Result<(), Fail> {
    let line = "if (x_1(D) < 7) goto __BB2; else goto __BB30;";
    let left = x();
    let right = literal(line, "7", LiteralType::Plain, "7");
    let yes_to = at(line, "__BB2");
    let no_to = at(line, "__BB30");
    judge_end(
        &rt,
        line,
        EndText::If(Code::Lt, left, right, yes_to, no_to),
        None,
    )?;
    let line = "if (-7 < y_5(D)) goto __BB2; else goto __BB30;";
    let left = literal(line, "-", LiteralType::Plain, "7");
    let right = y();
    judge_end(
        &rt,
        line,
        EndText::If(Code::Lt, left, right, yes_to, no_to),
        Some("-"),
    )?;
    let line = "return 5;";
    let five = literal(line, "5", LiteralType::Plain, "5");
    judge_end(&rt, line, EndText::Return(five), Some("5"))?;
    let line = "return _Literal (long) 5;";
    let five = literal(line, "_Literal", LiteralType::Written(IntType::long()), "5");
    judge_end(&rt, line, EndText::Return(five), None)?;
    let line = "return z_9;";
    judge_end(&rt, line, EndText::Return(name(line, "z_9")), Some("z_9"))?;
    let line = "return y_5(D);";
    judge_end(&rt, line, EndText::Return(y()), None)?;
    let line = "goto __BB30;";
    judge_end(&rt, line, EndText::Goto(at(line, "__BB30")), None)?;
    Ok(())
}

#[test]
fn arguments_of_phis_before_later_faults(rt: HostRuntime) -> Result<(), Fail> {
    let line = "_2 = __PHI (__BB4: x_1(D), __BB5: y_5(D));";
    let left = arg(line, "__BB4", x());
    let right = arg(line, "__BB5", y());
    let found = phi(rt.alloc(), line, &[left, right])?;
    let mut items = Items::new(rt.alloc());
    items.push(found)?;
    let later = "_3 = z_9;";
    items.push(stmt(later, "_3", "z_9", RightForm::Copy(name(later, "z_9"))))?;
    let end = EndText::Return(name("return z_9;", "z_9"));
    let mismatched = file(rt.alloc(), items, Some(end))?;
    judge(&rt, line, &mismatched, Some(at(line, "__BB5")));
    let line = "_2 = __PHI (__BB6: _2, __BB7: 9);";
    let left = arg(line, "__BB6", name(line, "_2"));
    let right = arg(line, "__BB7", literal(line, "9", LiteralType::Plain, "9"));
    let found = phi(rt.alloc(), line, &[left, right])?;
    let mut items = Items::new(rt.alloc());
    items.push(found)?;
    let fitting = file(rt.alloc(), items, None)?;
    judge(&rt, line, &fitting, None);
    Ok(())
}
