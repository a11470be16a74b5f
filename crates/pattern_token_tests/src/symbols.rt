//! What tokens mean.

use pd_lexer::lex;
use pd_text::meanings;
use pm_ops::PatternFault;
use std::alloc::Global;
use std::process::Abort;
use std::test::Fail;

/// The words that grammars quote, and words beside them.
const WORDS: &str = "\
simplify => [Word(Simplify, Span { from: 0, to: 8 })]
match => [Word(Match, Span { from: 0, to: 5 })]
for => [Word(For, Span { from: 0, to: 3 })]
if => [Word(If, Span { from: 0, to: 2 })]
switch => [Word(Switch, Span { from: 0, to: 6 })]
with => [Word(With, Span { from: 0, to: 4 })]
define_operator_list => [Word(OperatorList, Span { from: 0, to: 20 })]
define_predicates => [Word(Predicates, Span { from: 0, to: 17 })]
tree => [Word(Tree, Span { from: 0, to: 4 })]
wide_int => [Word(WideInt, Span { from: 0, to: 8 })]
bool => [Word(Boolean, Span { from: 0, to: 4 })]
int => [Word(Int, Span { from: 0, to: 3 })]
unsigned => [Word(Unsigned, Span { from: 0, to: 8 })]
signop => [Word(Signop, Span { from: 0, to: 6 })]
tree_code => [Word(TreeCode, Span { from: 0, to: 9 })]
wi => [Word(Wide, Span { from: 0, to: 2 })]
overflow_type => [Word(OverflowType, Span { from: 0, to: 13 })]
add => [Word(Add, Span { from: 0, to: 3 })]
sub => [Word(Subtract, Span { from: 0, to: 3 })]
mul => [Word(Multiply, Span { from: 0, to: 3 })]
neg => [Word(Negate, Span { from: 0, to: 3 })]
trees => [Identifier(Span { from: 0, to: 5 })]
TREE => [Identifier(Span { from: 0, to: 4 })]
overflow => [Identifier(Span { from: 0, to: 8 })]";

/// Marks, by their bytes.
const MARKS: &str = "\
( => [Mark(Open, Span { from: 0, to: 1 })]
) => [Mark(Close, Span { from: 0, to: 1 })]
{ => [Mark(OpenBrace, Span { from: 0, to: 1 })]
} => [Mark(CloseBrace, Span { from: 0, to: 1 })]
, => [Mark(Comma, Span { from: 0, to: 1 })]
; => [Mark(Semicolon, Span { from: 0, to: 1 })]
: => [Mark(Colon, Span { from: 0, to: 1 })]
:: => [Mark(DoubleColon, Span { from: 0, to: 2 })]
? => [Mark(Question, Span { from: 0, to: 1 })]
! => [Mark(Exclamation, Span { from: 0, to: 1 })]
~ => [Mark(Tilde, Span { from: 0, to: 1 })]
& => [Mark(Ampersand, Span { from: 0, to: 1 })]
&& => [Mark(DoubleAmpersand, Span { from: 0, to: 2 })]
| => [Mark(Bar, Span { from: 0, to: 1 })]
|| => [Mark(DoubleBar, Span { from: 0, to: 2 })]
^ => [Mark(Caret, Span { from: 0, to: 1 })]
+ => [Mark(Plus, Span { from: 0, to: 1 })]
- => [Mark(Minus, Span { from: 0, to: 1 })]
* => [Mark(Star, Span { from: 0, to: 1 })]
/ => [Mark(Slash, Span { from: 0, to: 1 })]
% => [Mark(Percent, Span { from: 0, to: 1 })]
= => [Mark(Assign, Span { from: 0, to: 1 })]
== => [Mark(Equal, Span { from: 0, to: 2 })]
!= => [Mark(NotEqual, Span { from: 0, to: 2 })]
< => [Mark(Less, Span { from: 0, to: 1 })]
<= => [Mark(LessEqual, Span { from: 0, to: 2 })]
> => [Mark(Greater, Span { from: 0, to: 1 })]
>= => [Mark(GreaterEqual, Span { from: 0, to: 2 })]
<< => [Mark(ShiftLeft, Span { from: 0, to: 2 })]
>> => [Mark(ShiftRight, Span { from: 0, to: 2 })]";

/// All else goes by its kind.
const OTHERS: &str = "\
0x1fu => [Number(Span { from: 0, to: 5 })]
@1 => [Capture(Capture { at: Span { from: 0, to: 2 }, by_value: false, joined: false })]
@@1 => [Capture(Capture { at: Span { from: 0, to: 3 }, by_value: true, joined: false })]
?@1 => [Mark(Question, Span { from: 0, to: 1 }), \
Capture(Capture { at: Span { from: 1, to: 3 }, by_value: false, joined: true })]
?@@1 => [Mark(Question, Span { from: 0, to: 1 }), \
Capture(Capture { at: Span { from: 1, to: 4 }, by_value: true, joined: true })]
\"a\" => [Text(Span { from: 0, to: 3 })]";

/// The symbols of a text.
fn symbols_of(alloc: Global, text: &str) -> Result<String, PatternFault> {
    let tokens = lex(alloc, text.as_bytes())?;
    let symbols = meanings(alloc, &tokens, text.as_bytes())?;
    Ok(format!(in alloc; "{symbols:?}")?)
}

/// Each row has its symbols.
fn judge(rt: &impl Abort, alloc: Global, rows: &str) -> Result<(), PatternFault> {
    for row in rows.split('\n') {
        let (text, answer) = row.split_once(" => ").unwrap_or((row, ""));
        let found = symbols_of(alloc, text)?;
        assert_eq!(rt; found.as_str(), answer, "{text}");
    }
    Ok(())
}

#[test]
fn words(rt: HostRuntime) -> Result<(), Fail> {
    Ok(judge(&rt, rt.alloc(), WORDS)?)
}

#[test]
fn marks(rt: HostRuntime) -> Result<(), Fail> {
    Ok(judge(&rt, rt.alloc(), MARKS)?)
}

#[test]
fn other_tokens(rt: HostRuntime) -> Result<(), Fail> {
    Ok(judge(&rt, rt.alloc(), OTHERS)?)
}
