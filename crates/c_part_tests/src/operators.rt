//! How operators group. A row is a condition and the place of its outermost operator.

use cond_subset::{ExprText, cond_syntax};
use pd_lexer::lex;
use pm_ops::PatternFault;
use std::alloc::Global;
use std::process::Abort;
use std::test::Fail;

/// Each level binds tighter than the one before; operators group to the left, `?:` to the right.
const OUTERMOST: &str = "\
a ? b : c ? d : e => 2
a ? b ? c : d : e => 2
a || b ? c : d => 7
a && b || c => 7
a || b && c => 2
a | b && c => 6
a ^ b | c => 6
a | b ^ c => 2
a & b ^ c => 6
a == b & c => 7
a & b != c => 2
a < b == c => 6
a == b >= c => 2
a + b <= c => 6
a > b - c => 2
a * b - c => 6
1 + 2 * 3 == 7 => 10
a - b - c => 6
a - b + c => 6
a * b * c => 6
a != b == c => 7
-a * b => 3
!~-a => 0
(a + b) * c => 8
wi::clz (wi::to_wide (@0)) == 32 => 27
f () => 0
wi::foo (a, b, c, d, e) => 4
wi (wi) => 0
wi - tree => 3";

/// The place of the outermost operator, or of what is no operation.
fn outermost(expr: &ExprText) -> usize {
    match expr {
        ExprText::Number(at) | ExprText::Capture(at) | ExprText::Name(at) => at.from,
        ExprText::Parens(at, _) | ExprText::Unary(_, at, _) => at.from,
        ExprText::Binary(_, at, _, _) | ExprText::Choose(at, _, _, _) => at.from,
        ExprText::Call(callee, _) => callee.name.from,
    }
}

/// The place of the outermost operator of a condition, in words.
fn operator_of(alloc: Global, text: &str) -> Result<String, PatternFault> {
    let tokens = lex(alloc, text.as_bytes())?;
    let expr = cond_syntax(alloc, &tokens, text.as_bytes())?;
    let at = outermost(&expr);
    Ok(format!(in alloc; "{at}")?)
}

/// Each row has its operator there.
fn judge(rt: &impl Abort, alloc: Global, rows: &str) -> Result<(), PatternFault> {
    for row in rows.split('\n') {
        let (text, answer) = row.split_once(" => ").unwrap_or((row, ""));
        assert_eq!(rt; operator_of(alloc, text)?.as_str(), answer, "{text}");
    }
    Ok(())
}

#[test]
fn outermost_operators(rt: HostRuntime) -> Result<(), Fail> {
    Ok(judge(&rt, rt.alloc(), OUTERMOST)?)
}
