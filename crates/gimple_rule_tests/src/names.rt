use gim_names::check_names;
use gim_text::{
    ArgText, BlockText, DeclText, EndText, FunctionText, GimpleFault, GimpleKind, ItemText,
    LiteralText, LiteralType, OperandText, RightForm, RightText,
};
use pm_items::Items;
use pm_ops::{Code, OutOfMemory};
use pm_places::{Span, text};
use pm_wide::IntType;
use std::alloc::Global;
use std::mem;

/// Texts without a fault. A text is words in pairs: a letter says what the word behind it is.
///
/// `f` a function, `p` a parameter, `l` a local, `b` the number of a block, `i` a name that a phi
/// assigns, `a` one that a statement assigns, `r` the end of a block, and then operands: `u` a
/// name, `d` a name with `(D)`, `c` a number, `n` a negative number of type `signed char`.
const ACCEPTED: [&str; 19] = [
    "",
    "f f",
    "f f f g",
    "f f p f l g b 2 a g_1 d f_2",
    "f f p x l _5 b 2 a _5 d x_1 r return u _5",
    // a declared name need not be assigned, and declarations have no mark
    "f f l _5 b 2",
    // function names and locals may look like names
    "f _6 p x_1 l y_2 b 2 a x_1_3 c 1 a y_2_4 u x_1_3",
    // with `_5` declared, `_5_7` is a name of base `_5`
    "f f l _5 b 2 a _5_7 c 1 a _5 u _5_7",
    "f f l __BB02 b 2 a __BB02_7 c 1",
    "f f l x_ b 2 a x__1 c 1",
    // a name may be read before its assignment, in a block before it too
    "f f l x b 2 a x_1 u x_2 b 3 a x_2 u x_1",
    "f f p x l y b 2 i y_3 d x_1 u y_3 u y_4 b 3 a y_4 c 1 c 2 c 3",
    "f f p x p y b 2 a x_3 d x_1 d y_2 d x_1 r if d x_1 d y_2",
    // each function has its own names
    "f f p x l _1 b 2 a _1 c 5 f g p x l _1 b 2 a _1 c 5",
    "f f p x b 2 a x_1 c 1 f g p x b 2 a x_2 d x_1",
    // versions of any size are compared by their digits
    "f f p x b 2 a x_99999999999999999999999999 c 1 a x_99999999999999999999999998 c 1",
    "f f p x b 99999999999999999999999999 b 99999999999999999999999998",
    "f f b 2 r return c 9223372036854775807 b 3 r return c 0",
    "f f b 2 r return n 128 b 3 r return n 0",
];

/// Texts with a second of something. The fault is at the word behind `!`.
const REDEFINED: [&str; 24] = [
    "f f f g f !f b 2 b 2",
    "f f p x p y p !x",
    "f f l x l !x",
    "f f p x l y l !x",
    "f f l _5 l _6 l !_5",
    "f f b 2 b 3 b !2",
    "f f l x b 2 a x_1 c 1 a !x_1 c 2",
    "f f l x b 2 a x_1 c 1 b 3 i !x_1 u x_1",
    "f f l _5 b 2 a _5 c 1 a !_5 c 2",
    // two bases
    "f f p x p y b 2 a x_1 c 1 a !y_1 c 2",
    "f f p x p y b 2 a x_1 u !y_1 a y_1 c 2",
    "f f p x p y b 2 a x_3 d x_1 d !y_1",
    // the base of a declared anonymous name is empty
    "f f p x l _5 b 2 a !x_5 c 1",
    "f f p x l _5 b 2 r return d !x_5",
    "f f l _5 b 2 a _5 c 1 r return u !_5_5",
    // with `(D)` and without
    "f f p x b 2 a x_1 c 1 r return d !x_1",
    "f f p x b 2 i x_2 u x_1 d !x_1 a x_1 c 1",
    "f f p x b 2 a x_2 d x_1 u !x_1",
    "f f p x b 2 a x_2 d x_1 a !x_1 c 1",
    "f f l _6 b 2 a _6 c 1 r return d !_6",
    // two default definitions of one parameter
    "f f p x b 2 a x_3 d x_1 d !x_2",
    "f f p x b 2 a x_3 d x_1 b 3 r if c 1 d !x_2",
    // the first of two faults, and of two kinds at one place
    "f f p x p !x p _5 l x b 2 b 2",
    "f f p x b 2 a x_3 d x_1 d !z_1 c 99999999999999999999",
];

/// Texts that lack a declaration or an assignment.
const UNDECLARED: [&str; 22] = [
    "f f p !_5",
    "f f p x p !_5 l _5",
    "f f p x b 2 a !x c 1",
    "f f p x b 2 a !x_01 c 1",
    "f f p x b 2 a !x_1u c 1",
    "f f p x b 2 r return u !x",
    "f f p x b 2 r return d !x_",
    // a base that is not declared, or only in another function
    "f f p x b 2 a !y_1 c 1",
    "f f l y b 2 f g b 2 a !y_1 c 1",
    "f f p x b 2 r return u !y_1",
    // an anonymous name that is not declared
    "f f p x b 2 a !_5 c 1",
    "f f l _6 b 2 a _6 u !_5",
    "f f l _5 b 2 a !_05 c 1",
    // `(D)` on a local, on an anonymous name, on what is not declared
    "f f p y l x b 2 r return d !x_1",
    "f f l _6 b 2 r return d !_6",
    "f f p x b 2 r return d !y_1",
    // names that nothing assigns
    "f f p x b 2 r return u !x_5",
    "f f p x b 2 a x_1 u x_1 r if u x_1 u !x_5 b 3 r return d x_5",
    "f f l _5 b 2 r return u !_5",
    "f f p x b 2 a x_1 c 1 f g p x b 2 r return u !x_1",
    // a name of one version and another base is another identifier
    "f f p x p y b 2 r return u !y_1 b 3 a x_1 c 1",
    "f f p x b 2 a x_1 u !y_2 a x_1 c 99999999999999999999",
];

/// Texts with a number that its type does not hold.
const WIDE: [&str; 6] = [
    "f f b 2 r return c !9223372036854775808",
    "f f b 2 r return c !99999999999999999999999999999999999999999999999999",
    "f f b 2 r return n !129",
    "f f p x b 2 a x_1 c 1 c !9223372036854775808 c 9223372036854775808",
    "f f p x b 2 i x_1 c 1 c !9223372036854775808 a x_1 c 1",
    "f f b 2 r if n !129 u x",
];

/// What was begun in a block.
#[derive(Clone, Copy)]
enum Begun {
    Nothing,
    Phi(Span),
    Stmt(Span),
    End,
}

/// Functions, as far as they are read.
#[derive(Drop)]
struct Draft {
    functions: Items<FunctionText>,
    name: Option<Span>,
    params: Items<DeclText>,
    decls: Items<DeclText>,
    blocks: Items<BlockText>,
    number: Option<Span>,
    items: Items<ItemText>,
    begun: Begun,
    operands: Vec<OperandText>,
    end: Option<EndText>,
}

/// A right side of these operands.
fn right(operands: &[OperandText]) -> Option<RightForm> {
    match operands {
        [a] => Some(RightForm::Copy(*a)),
        [a, b] => Some(RightForm::Binary(Code::Plus, *a, *b)),
        [a, b, c] => Some(RightForm::Choice(*a, *b, *c)),
        _ => None,
    }
}

/// An end of these operands.
fn end(at: Span, operands: &[OperandText]) -> EndText {
    match operands {
        [a] => EndText::Return(*a),
        [a, b] => EndText::If(Code::Lt, *a, *b, at, at),
        _ => EndText::Goto(at),
    }
}

/// Arguments of a phi.
fn args(
    alloc: Global,
    from: Span,
    operands: &[OperandText],
) -> Result<Items<ArgText>, OutOfMemory> {
    let mut args = Items::new(alloc);
    for operand in operands {
        args.push(ArgText {
            from,
            operand: *operand,
        })?;
    }
    Ok(args)
}

impl Draft {
    fn new(alloc: Global) -> Draft {
        Draft {
            functions: Items::new(alloc),
            name: None,
            params: Items::new(alloc),
            decls: Items::new(alloc),
            blocks: Items::new(alloc),
            number: None,
            items: Items::new(alloc),
            begun: Begun::Nothing,
            operands: Vec::new(alloc),
            end: None,
        }
    }

    /// Ends what was begun in the block, and begins something.
    fn begin(&mut self, alloc: Global, next: Begun) -> Result<(), OutOfMemory> {
        let operands = mem::replace(&mut self.operands, Vec::new(alloc));
        match self.begun {
            Begun::Nothing => {}
            Begun::Phi(name) => {
                let args = args(alloc, name, operands.as_slice())?;
                self.items.push(ItemText::Phi(name, args))?;
            }
            Begun::Stmt(name) => {
                if let Some(form) = right(operands.as_slice()) {
                    let right = RightText { start: name, form };
                    self.items.push(ItemText::Stmt(name, right))?;
                }
            }
            Begun::End => self.end = Some(end(Span { from: 0, to: 0 }, operands.as_slice())),
        }
        self.begun = next;
        Ok(())
    }

    /// Ends the block, and begins one of this number.
    fn begin_block(&mut self, alloc: Global, next: Option<Span>) -> Result<(), OutOfMemory> {
        self.begin(alloc, Begun::Nothing)?;
        let items = mem::replace(&mut self.items, Items::new(alloc));
        let end = self.end;
        if let Some(number) = self.number {
            self.blocks.push(BlockText {
                head: number,
                number,
                items,
                end,
            })?;
        }
        self.number = next;
        self.end = None;
        Ok(())
    }

    /// Ends the function, and begins one of this name.
    fn begin_function(&mut self, alloc: Global, next: Option<Span>) -> Result<(), OutOfMemory> {
        self.begin_block(alloc, None)?;
        let params = mem::replace(&mut self.params, Items::new(alloc));
        let decls = mem::replace(&mut self.decls, Items::new(alloc));
        let blocks = mem::replace(&mut self.blocks, Items::new(alloc));
        if let Some(name) = self.name {
            self.functions.push(FunctionText {
                result: IntType::int(),
                name,
                params,
                decls,
                blocks,
                close: name,
            })?;
        }
        self.name = next;
        Ok(())
    }

    /// Reads one word, of which a letter says what it is.
    fn read(&mut self, alloc: Global, letter: u8, at: Span) -> Result<(), OutOfMemory> {
        let decl = DeclText {
            ty: IntType::int(),
            ident: at,
        };
        let constant = LiteralText {
            start: at,
            ty: LiteralType::Plain,
            negative: false,
            number: at,
        };
        let negative = LiteralText {
            start: at,
            ty: LiteralType::Written(IntType::signed_char()),
            negative: true,
            number: at,
        };
        match letter {
            b'f' => self.begin_function(alloc, Some(at))?,
            b'p' => self.params.push(decl)?,
            b'l' => self.decls.push(decl)?,
            b'b' => self.begin_block(alloc, Some(at))?,
            b'i' => self.begin(alloc, Begun::Phi(at))?,
            b'a' => self.begin(alloc, Begun::Stmt(at))?,
            b'r' => self.begin(alloc, Begun::End)?,
            b'u' => self.operands.push(OperandText::Name(at))?,
            b'd' => self.operands.push(OperandText::Default(at))?,
            b'c' => self.operands.push(OperandText::Literal(constant))?,
            _ => self.operands.push(OperandText::Literal(negative))?,
        }
        Ok(())
    }
}

/// The words of a text, which blanks and `!` separate.
fn words(alloc: Global, source: &[u8]) -> Result<Vec<Span>, OutOfMemory> {
    let mut words = Vec::new(alloc);
    let mut from = 0;
    for (to, byte) in source.iter().enumerate() {
        if *byte == b' ' || *byte == b'!' {
            if from < to {
                words.push(Span { from, to })?;
            }
            from = to.saturating_add(1);
        }
    }
    if from < source.len() {
        words.push(Span {
            from,
            to: source.len(),
        })?;
    }
    Ok(words)
}

/// The functions of a text.
fn functions(alloc: Global, source: &[u8]) -> Result<Items<FunctionText>, OutOfMemory> {
    let words = words(alloc, source)?;
    let mut draft = Draft::new(alloc);
    let mut letter = None;
    for word in &words {
        match letter {
            None => letter = text(source, *word).first().copied(),
            Some(byte) => {
                draft.read(alloc, byte, *word)?;
                letter = None;
            }
        }
    }
    draft.begin_function(alloc, None)?;
    Ok(mem::replace(&mut draft.functions, Items::new(alloc)))
}

/// What a text is found to be.
fn found(alloc: Global, text: &str) -> Result<(), GimpleFault> {
    let functions = functions(alloc, text.as_bytes())?;
    check_names(alloc, text.as_bytes(), functions.as_slice())
}

/// The fault of a kind at the word behind `!`.
fn expected(text: &str, kind: GimpleKind) -> GimpleFault {
    let mut at = 0;
    let mut len = 0;
    let mut is_behind = false;
    for (place, byte) in text.as_bytes().iter().enumerate() {
        if *byte == b'!' {
            at = place.saturating_add(1);
            is_behind = true;
        } else if *byte == b' ' {
            is_behind = false;
        } else if is_behind {
            len = place.saturating_add(1).saturating_sub(at);
        }
    }
    GimpleFault { kind, at, len }
}

#[test]
fn accepts(rt: HostRuntime) {
    for text in ACCEPTED {
        assert_eq!(rt; found(rt.alloc(), text), Ok(()), "{text}");
    }
}

#[test]
fn finds_what_is_redefined(rt: HostRuntime) {
    for text in REDEFINED {
        let fault = expected(text, GimpleKind::Redefined);
        assert_eq!(rt; found(rt.alloc(), text), Err(fault), "{text}");
    }
}

#[test]
fn finds_what_is_undeclared(rt: HostRuntime) {
    for text in UNDECLARED {
        let fault = expected(text, GimpleKind::Undeclared);
        assert_eq!(rt; found(rt.alloc(), text), Err(fault), "{text}");
    }
}

#[test]
fn finds_wide_constants(rt: HostRuntime) {
    for text in WIDE {
        let fault = expected(text, GimpleKind::WideLiteral);
        assert_eq!(rt; found(rt.alloc(), text), Err(fault), "{text}");
    }
}
