//! Blocks, from their tokens.

use gim_statements::read_block;
use gim_text::{
    ArgText, BlockText, EndText, ItemText, Keyword, LiteralText, LiteralType, Mark, NumberKind,
    OperandText, RightForm, RightText, Token, TokenStop, TypeWord,
};
use grammar::{Stop, whole_in_memory};
use pm_ops::Code;
use pm_places::Span;
use std::alloc::{AllocError, Global};
use std::test::Fail;

/// The token of a word, at the place that its number says.
fn token_of(word: &str, number: usize) -> Token {
    let at = Span {
        from: number,
        to: number.saturating_add(1),
    };
    match word {
        "__BB" => Token::Keyword(Keyword::Block, at),
        "__PHI" => Token::Keyword(Keyword::Phi, at),
        "goto" => Token::Keyword(Keyword::Goto, at),
        "if" => Token::Keyword(Keyword::If, at),
        "else" => Token::Keyword(Keyword::Else, at),
        "return" => Token::Keyword(Keyword::Return, at),
        "__MIN" => Token::Keyword(Keyword::Min, at),
        "__ABS" => Token::Keyword(Keyword::Abs, at),
        "_Literal" => Token::Keyword(Keyword::Literal, at),
        "D" => Token::Keyword(Keyword::Default, at),
        "__BB3" | "__BB4" => Token::BlockWord(at),
        "int" => Token::TypeWord(TypeWord::Int, at),
        "2" | "5" => Token::Number(NumberKind::Plain, at),
        "5u" => Token::Number(NumberKind::Unsigned, at),
        "007" => Token::Number(NumberKind::Wrong, at),
        _ => mark_of(word, at),
    }
}

/// The token of a mark, and else a name.
fn mark_of(word: &str, at: Span) -> Token {
    match word {
        "(" => Token::Mark(Mark::Open, at),
        ")" => Token::Mark(Mark::Close, at),
        "," => Token::Mark(Mark::Comma, at),
        ";" => Token::Mark(Mark::Semicolon, at),
        ":" => Token::Mark(Mark::Colon, at),
        "?" => Token::Mark(Mark::Question, at),
        "=" => Token::Mark(Mark::Assign, at),
        "+" => Token::Mark(Mark::Plus, at),
        "-" => Token::Mark(Mark::Minus, at),
        "<" => Token::Mark(Mark::Less, at),
        "ssa" => Token::Ssa(at),
        _ => Token::Identifier(at),
    }
}

/// The tokens of words with one space between them.
fn tokens_of(alloc: Global, text: &str) -> Result<Vec<Token>, AllocError> {
    let mut tokens = Vec::new(alloc);
    for word in text.split(' ') {
        let token = token_of(word, tokens.len());
        tokens.push(token)?;
    }
    Ok(tokens)
}

/// The block that the tokens spell, all of them.
fn read_whole(alloc: Global, tokens: &[Token]) -> Result<BlockText, TokenStop<'_>> {
    whole_in_memory(read_block(alloc, tokens), ())
}

/// The form of the right side of the only statement of a block; None also where it doesn't start at its
/// first token, which is the block's eighth.
fn form_of(alloc: Global, side: &str) -> Result<Option<RightForm>, AllocError> {
    let text = format!(in alloc; "__BB ( 2 ) : x_1 = {side} ;")?;
    let tokens = tokens_of(alloc, &text)?;
    match read_whole(alloc, &tokens) {
        Ok(block) => Ok(only_form(block.items.as_slice())),
        Err(_) => Ok(None),
    }
}

/// The form of the only statement, where its right side starts at the block's eighth token.
fn only_form(items: &[ItemText]) -> Option<RightForm> {
    match items {
        [
            ItemText::Stmt(
                _,
                RightText {
                    start: Span { from: 7, .. },
                    form,
                },
            ),
        ] => Some(*form),
        _ => None,
    }
}

/// How many tokens are left from the first fault on; None where there is none.
fn left_at_fault(alloc: Global, tokens: &[Token]) -> Option<usize> {
    match read_whole(alloc, tokens) {
        Err(Stop::Fault(fault)) => Some(fault.rest.len()),
        _ => None,
    }
}

/// How many tokens of the text are left from the first fault on.
fn left_of(alloc: Global, text: &str) -> Result<Option<usize>, AllocError> {
    let tokens = tokens_of(alloc, text)?;
    Ok(left_at_fault(alloc, &tokens))
}

/// Whether the text is read, and every front of it with more than `from` tokens faults at its end.
fn ends_too_early(alloc: Global, text: &str, from: usize) -> Result<bool, AllocError> {
    let tokens = tokens_of(alloc, text)?;
    let mut all = left_at_fault(alloc, &tokens).is_none();
    for len in from..tokens.len() {
        all = all && left_at_fault(alloc, &tokens[..len]) == Some(0);
    }
    Ok(all)
}

/// Names, with `(D)` and without.
#[test]
fn names(rt: HostRuntime) -> Result<(), Fail> {
    let alloc = rt.alloc();
    assert!(rt;
        matches!(
            form_of(alloc, "ssa")?,
            Some(RightForm::Copy(OperandText::Name(Span { from: 7, .. })))
        )
    );
    assert!(rt;
        matches!(
            form_of(alloc, "x_1 ( D )")?,
            Some(RightForm::Copy(OperandText::Default(Span { from: 7, .. })))
        )
    );
    Ok(())
}

/// Constants with each suffix, a sign and a written type.
#[test]
fn constants(rt: HostRuntime) -> Result<(), Fail> {
    let alloc = rt.alloc();
    assert!(rt;
        matches!(
            form_of(alloc, "- 5")?,
            Some(RightForm::Copy(OperandText::Literal(LiteralText {
                start: Span { from: 7, .. },
                ty: LiteralType::Plain,
                negative: true,
                number: Span { from: 8, .. },
            })))
        )
    );
    assert!(rt;
        matches!(
            form_of(alloc, "_Literal ( int ) - 5")?,
            Some(RightForm::Copy(OperandText::Literal(LiteralText {
                start: Span { from: 7, .. },
                ty: LiteralType::Written(_),
                negative: true,
                number: Span { from: 12, .. },
            })))
        )
    );
    Ok(())
}

/// Operations of one operand, casts among them.
#[test]
fn operations_of_one(rt: HostRuntime) -> Result<(), Fail> {
    let alloc = rt.alloc();
    // `-` negates a negative constant
    assert!(rt;
        matches!(
            form_of(alloc, "- - 5")?,
            Some(RightForm::Unary(
                Code::Negate,
                OperandText::Literal(LiteralText {
                    start: Span { from: 8, .. },
                    ty: LiteralType::Plain,
                    negative: true,
                    number: Span { from: 9, .. },
                }),
            ))
        )
    );
    assert!(rt;
        matches!(
            form_of(alloc, "( int ) a")?,
            Some(RightForm::Cast(_, OperandText::Name(Span { from: 10, .. })))
        )
    );
    Ok(())
}

/// Operators between two operands, and calls of two.
#[test]
fn operations_of_two(rt: HostRuntime) -> Result<(), Fail> {
    let alloc = rt.alloc();
    // after a negative constant an operator may follow
    assert!(rt;
        matches!(
            form_of(alloc, "- 5 - a")?,
            Some(RightForm::Binary(
                Code::Minus,
                OperandText::Literal(LiteralText { negative: true, .. }),
                OperandText::Name(Span { from: 10, .. }),
            ))
        )
    );
    assert!(rt;
        matches!(
            form_of(alloc, "__MIN ( a , b )")?,
            Some(RightForm::Binary(
                Code::Min,
                OperandText::Name(Span { from: 9, .. }),
                OperandText::Name(Span { from: 11, .. }),
            ))
        )
    );
    Ok(())
}

/// A choice, and a copy.
#[test]
fn choices(rt: HostRuntime) -> Result<(), Fail> {
    assert!(rt;
        matches!(
            form_of(rt.alloc(), "a ? 5u : b")?,
            Some(RightForm::Choice(
                OperandText::Name(Span { from: 7, .. }),
                OperandText::Literal(LiteralText {
                    ty: LiteralType::Unsigned,
                    ..
                }),
                OperandText::Name(Span { from: 11, .. }),
            ))
        )
    );
    Ok(())
}

/// Blocks of one statement.
const STATEMENTS: [&str; 6] = [
    "__BB ( 2 ) : x_1 = _Literal ( int ) - 5 ;",
    "__BB ( 2 ) : x_1 = x_2 ( D ) ;",
    "__BB ( 2 ) : x_1 = ( int ) a ;",
    "__BB ( 2 ) : x_1 = __ABS a ;",
    "__BB ( 2 ) : x_1 = __MIN ( a , b ) ;",
    "__BB ( 2 ) : x_1 = a ? b : c ;",
];

/// Each front of a statement faults at its end.
#[test]
fn fronts_of_statements(rt: HostRuntime) -> Result<(), Fail> {
    for text in &STATEMENTS {
        assert!(rt; ends_too_early(rt.alloc(), text, 6)?, "{text}");
    }
    Ok(())
}

/// Whether there is one phi, of two arguments, whose second is a constant.
fn is_phi(items: &[ItemText]) -> bool {
    match items {
        [ItemText::Phi(name, args)] => name.from == 10 && ends_in_a_constant(args.as_slice()),
        _ => false,
    }
}

/// Whether there are two arguments, the second of them a constant.
fn ends_in_a_constant(args: &[ArgText]) -> bool {
    match args {
        [_, second] => second.from.from == 18 && matches!(second.operand, OperandText::Literal(_)),
        _ => false,
    }
}

/// A block with a phi of several arguments.
#[test]
fn block_of_a_phi(rt: HostRuntime) -> Result<(), Fail> {
    let alloc = rt.alloc();
    let text = "__BB ( 2 , loop ( 5 ) ) : x_3 = __PHI ( __BB3 : a , __BB4 : 5 ) ; return x_3 ;";
    let tokens = tokens_of(alloc, text)?;
    let read = match read_whole(alloc, &tokens) {
        Ok(block) => {
            let ends = matches!(
                block.end,
                Some(EndText::Return(OperandText::Name(Span { from: 24, .. })))
            );
            ends && is_phi(block.items.as_slice())
        }
        Err(_) => false,
    };
    assert!(rt; read);
    assert!(rt; ends_too_early(alloc, text, 24)?);
    Ok(())
}

/// A block that ends in a branch.
#[test]
fn block_of_a_branch(rt: HostRuntime) -> Result<(), Fail> {
    let alloc = rt.alloc();
    let text = "__BB ( 2 ) : if ( a < b ) goto __BB3 ( x ( 5 ) ) ; else goto __BB4 ;";
    let tokens = tokens_of(alloc, text)?;
    let read = match read_whole(alloc, &tokens) {
        Ok(block) => {
            block.head.from == 0
                && block.number.from == 2
                && block.items.is_empty()
                && matches!(
                    block.end,
                    Some(EndText::If(
                        Code::Lt,
                        OperandText::Name(Span { from: 7, .. }),
                        OperandText::Name(Span { from: 9, .. }),
                        Span { from: 12, .. },
                        Span { from: 22, .. },
                    ))
                )
        }
        Err(_) => false,
    };
    assert!(rt; read);
    assert!(rt; ends_too_early(alloc, text, 6)?);
    Ok(())
}

/// A fault leaves the tokens from the offending one on.
#[test]
fn faults(rt: HostRuntime) -> Result<(), Fail> {
    let alloc = rt.alloc();
    // `D` is missing
    assert!(rt; left_of(alloc, "__BB ( 2 ) : x = x_1 ( ) ;")? == Some(2));
    assert!(rt; left_of(alloc, "__BB ( 2 ) : x = - 007 ;")? == Some(2));
    assert!(rt; left_of(alloc, "__BB ( 2 ) : x = _Literal ( int ) 5u ;")? == Some(2));
    // no block after `goto`
    assert!(rt; left_of(alloc, "__BB ( 2 ) : if ( a < b ) goto __BB3 ; else goto ;")? == Some(1));
    assert!(rt; left_of(alloc, "__BB ( 2 ) : if ( a < b ) goto __BB3 ; goto __BB4 ;")? == Some(3));
    // a phi has an argument
    assert!(rt; left_of(alloc, "__BB ( 2 ) : x = __PHI ( ) ;")? == Some(2));
    assert!(rt; left_of(alloc, "__BB ( 2 ) : x = _1 = a + ;")? == Some(4));
    assert!(rt; left_of(alloc, "__BB ( 2 ) : _1 = a + ;")? == Some(1));
    // nothing goes on after an end
    assert!(rt; left_of(alloc, "__BB ( 2 ) : return a ; x = a ;")? == Some(4));
    // a negated operand is no operand of `+`
    assert!(rt; left_of(alloc, "__BB ( 2 ) : x = - a + 5 ;")? == Some(3));
    Ok(())
}
