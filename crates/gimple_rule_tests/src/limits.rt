//! Trees are built by lines that are written into a text as they are put together. A `!` before a
//! word marks where the fault is.

use gim_limits::check_limits;
use gim_shape::check_shape;
use gim_text::{
    ArgText, BlockText, DeclText, EndText, FunctionText, GimpleFault, GimpleKind, ItemText,
    LiteralText, LiteralType, OperandText, RightForm, RightText,
};
use pm_items::Items;
use pm_ops::{Code, OutOfMemory};
use pm_places::Span;
use pm_wide::IntType;
use std::alloc::Global;
use std::mem;

/// A line of a function.
#[derive(Clone, Copy)]
enum Line<'a> {
    /// A local.
    Local(&'a str),
    /// The head of a block: `__BB` and its number.
    Block(&'a str, &'a str),
    /// A phi with the blocks that its arguments name; each argument is `x_1`.
    Phi(&'a str, &'a [&'a str]),
    /// A statement that copies an operand.
    Stmt(&'a str, &'a str),
    Goto(&'a str),
    /// With the operands `x_1` and `5`.
    If(&'a str, &'a str),
    Return(&'a str),
    /// The `}` of a function.
    Close(&'a str),
}

use Line::{Block, Close, Goto, If, Local, Phi, Return, Stmt};

/// A text and the trees of what is written in it.
#[derive(Drop)]
struct Writer {
    alloc: Global,
    source: String,
    marked: Option<Span>,
    /// The `__BB` and the number of the block that is written.
    block: Option<(Span, Span)>,
    items: Items<ItemText>,
    decls: Items<DeclText>,
    blocks: Items<BlockText>,
    functions: Items<FunctionText>,
}

impl Writer {
    fn new(alloc: Global) -> Writer {
        Writer {
            alloc,
            source: String::new(alloc),
            marked: None,
            block: None,
            items: Items::new(alloc),
            decls: Items::new(alloc),
            blocks: Items::new(alloc),
            functions: Items::new(alloc),
        }
    }

    /// Writes a word, which is marked where a `!` stands before it.
    fn word(&mut self, word: &str) -> Result<Span, OutOfMemory> {
        let from = self.source.len();
        let plain = match word.strip_prefix('!') {
            Some(plain) => plain,
            None => word,
        };
        self.source.push_str(plain)?;
        let span = Span {
            from,
            to: self.source.len(),
        };
        self.source.push(' ')?;
        if plain.len() < word.len() {
            self.marked = Some(span);
        }
        Ok(span)
    }

    /// Writes an operand, which is a constant where it begins with a digit and a default definition
    /// where it ends in `D`.
    fn operand(&mut self, word: &str) -> Result<OperandText, OutOfMemory> {
        if let Some(name) = word.strip_suffix("(D)") {
            return Ok(OperandText::Default(self.word(name)?));
        }
        let span = self.word(word)?;
        if !word.starts_with(|c: char| c.is_ascii_digit()) {
            return Ok(OperandText::Name(span));
        }
        Ok(OperandText::Literal(LiteralText {
            start: span,
            ty: LiteralType::Plain,
            negative: false,
            number: span,
        }))
    }

    /// Ends the block that is written, if one is.
    fn end_block(&mut self, end: Option<EndText>) -> Result<(), OutOfMemory> {
        let items = mem::replace(&mut self.items, Items::new(self.alloc));
        if let Some((head, number)) = self.block {
            self.blocks.push(BlockText {
                head,
                number,
                items,
                end,
            })?;
        }
        self.block = None;
        Ok(())
    }

    fn phi(&mut self, name: &str, from: &[&str]) -> Result<(), OutOfMemory> {
        let name = self.word(name)?;
        let mut args = Items::new(self.alloc);
        for word in from {
            let from = self.word(word)?;
            let operand = self.operand("x_1")?;
            args.push(ArgText { from, operand })?;
        }
        self.items.push(ItemText::Phi(name, args))?;
        Ok(())
    }

    fn stmt(&mut self, name: &str, operand: &str) -> Result<(), OutOfMemory> {
        let name = self.word(name)?;
        let start = Span {
            from: self.source.len(),
            to: self.source.len(),
        };
        let form = RightForm::Copy(self.operand(operand)?);
        self.items
            .push(ItemText::Stmt(name, RightText { start, form }))?;
        Ok(())
    }

    fn close(&mut self, brace: &str) -> Result<(), OutOfMemory> {
        self.end_block(None)?;
        let close = self.word(brace)?;
        let decls = mem::replace(&mut self.decls, Items::new(self.alloc));
        let blocks = mem::replace(&mut self.blocks, Items::new(self.alloc));
        self.functions.push(FunctionText {
            result: IntType::int(),
            name: close,
            params: Items::new(self.alloc),
            decls,
            blocks,
            close,
        })?;
        Ok(())
    }

    fn line(&mut self, line: &Line) -> Result<(), OutOfMemory> {
        match *line {
            Local(name) => {
                let ident = self.word(name)?;
                self.decls.push(DeclText {
                    ty: IntType::int(),
                    ident,
                })?;
            }
            Block(head, number) => {
                self.end_block(None)?;
                self.block = Some((self.word(head)?, self.word(number)?));
            }
            Phi(name, from) => self.phi(name, from)?,
            Stmt(name, operand) => self.stmt(name, operand)?,
            Goto(to) => {
                let end = EndText::Goto(self.word(to)?);
                self.end_block(Some(end))?;
            }
            If(to, otherwise) => {
                let a = self.operand("x_1")?;
                let b = self.operand("5")?;
                let end = EndText::If(Code::Lt, a, b, self.word(to)?, self.word(otherwise)?);
                self.end_block(Some(end))?;
            }
            Return(operand) => {
                let end = EndText::Return(self.operand(operand)?);
                self.end_block(Some(end))?;
            }
            Close(brace) => self.close(brace)?,
        }
        Ok(())
    }

    /// Whether the stage of shape finds a fault of this kind at the marked word, or none where none
    /// is marked.
    fn has_shape(&self, kind: GimpleKind) -> bool {
        let found = check_shape(
            self.alloc,
            self.source.as_bytes(),
            self.functions.as_slice(),
        );
        self.is_fault(found, kind)
    }

    /// Whether the stage of limits finds that the marked word is too large, or nothing where none
    /// is marked.
    fn keeps_limits(&self) -> bool {
        let found = check_limits(
            self.alloc,
            self.source.as_bytes(),
            self.functions.as_slice(),
        );
        self.is_fault(found, GimpleKind::TooLarge)
    }

    fn is_fault(&self, found: Result<(), GimpleFault>, kind: GimpleKind) -> bool {
        match (found, self.marked) {
            (Ok(()), None) => true,
            (Err(fault), Some(span)) => fault == GimpleFault::at(kind, span),
            _ => false,
        }
    }
}

fn written(alloc: Global, lines: &[Line]) -> Result<Writer, OutOfMemory> {
    let mut writer = Writer::new(alloc);
    for line in lines {
        writer.line(line)?;
    }
    Ok(writer)
}

/// Whether the stage of shape finds a fault of this kind at the marked word of each, or none where
/// none is marked.
fn each_has_shape(alloc: Global, cases: &[&[Line]], kind: GimpleKind) -> Result<bool, OutOfMemory> {
    for lines in cases {
        if !written(alloc, lines)?.has_shape(kind) {
            return Ok(false);
        }
    }
    Ok(true)
}

/// Whether the stage of limits finds that the marked word of each is too large, or nothing where
/// none is marked.
fn each_keeps_limits(alloc: Global, cases: &[&[Line]]) -> Result<bool, OutOfMemory> {
    for lines in cases {
        if !written(alloc, lines)?.keeps_limits() {
            return Ok(false);
        }
    }
    Ok(true)
}

/// No function, and two functions of which the first has a loop.
const GOOD: [&[Line]; 2] = [
    &[],
    &[
        Local("_7"),
        Block("__BB", "2"),
        Stmt("x_2", "x_1(D)"),
        Goto("__BB3"),
        Block("__BB", "3"),
        Phi("x_3", &["__BB3", "__BB2"]),
        Phi("x_4", &["__BB2", "__BB3"]),
        Stmt("_7", "5"),
        If("__BB3", "__BB4"),
        Block("__BB", "4"),
        Phi("x_5", &["__BB3"]),
        Return("x_5"),
        Close("}"),
        Block("__BB", "0"),
        Return("5"),
        Close("}"),
    ],
];

#[test]
fn functions_with_a_shape(rt: HostRuntime) -> Result<(), OutOfMemory> {
    assert!(rt; each_has_shape(rt.alloc(), &GOOD, GimpleKind::NoReturn)?);
    assert!(rt; each_keeps_limits(rt.alloc(), &GOOD)?);
    Ok(())
}

const NO_END: [&[Line]; 3] = [
    &[
        Block("__BB", "2"),
        Goto("__BB3"),
        Block("!__BB", "3"),
        Close("}"),
    ],
    &[
        Block("!__BB", "2"),
        Stmt("x_2", "5"),
        Block("__BB", "3"),
        Close("}"),
    ],
    // the head stands before the phi of its block
    &[Block("!__BB", "2"), Phi("x_3", &["__BB2"]), Close("}")],
];

#[test]
fn a_block_without_an_end(rt: HostRuntime) -> Result<(), OutOfMemory> {
    assert!(rt; each_has_shape(rt.alloc(), &NO_END, GimpleKind::NoReturn)?);
    Ok(())
}

const MISSING: [&[Line]; 6] = [
    &[Block("__BB", "2"), Goto("!__BB3"), Close("}")],
    &[Block("__BB", "2"), If("!__BB3", "__BB4"), Close("}")],
    &[Block("__BB", "2"), If("__BB2", "!__BB22"), Close("}")],
    &[Local("_7"), Close("!}")],
    // each function has blocks of its own
    &[
        Block("__BB", "2"),
        Return("5"),
        Close("}"),
        Block("__BB", "3"),
        Goto("!__BB2"),
        Close("}"),
    ],
    // the first of several faults
    &[
        Block("__BB", "2"),
        Goto("!__BB9"),
        Block("__BB", "3"),
        Close("}"),
        Close("}"),
    ],
];

#[test]
fn a_missing_block(rt: HostRuntime) -> Result<(), OutOfMemory> {
    assert!(rt; each_has_shape(rt.alloc(), &MISSING, GimpleKind::MissingBlock)?);
    Ok(())
}

const MISPLACED: [&[Line]; 4] = [
    // in the entry
    &[
        Block("__BB", "2"),
        Phi("!x_3", &["__BB2"]),
        Goto("__BB2"),
        Close("}"),
    ],
    // after a statement
    &[
        Block("__BB", "2"),
        Goto("__BB3"),
        Block("__BB", "3"),
        Phi("x_3", &["__BB2"]),
        Stmt("x_4", "x_3"),
        Phi("!x_5", &["__BB2"]),
        Return("5"),
        Close("}"),
    ],
    // in a block to which none jumps
    &[
        Block("__BB", "2"),
        Return("5"),
        Block("__BB", "3"),
        Phi("!x_3", &["__BB2"]),
        Return("5"),
        Close("}"),
    ],
    // its name stands before a jump to a missing block
    &[
        Block("__BB", "2"),
        Goto("__BB3"),
        Block("__BB", "3"),
        Phi("!x_3", &["__BB9"]),
        Goto("__BB9"),
        Close("}"),
    ],
];

#[test]
fn a_phi_where_none_may_stand(rt: HostRuntime) -> Result<(), OutOfMemory> {
    assert!(rt; each_has_shape(rt.alloc(), &MISPLACED, GimpleKind::BadPhi)?);
    Ok(())
}

/// Phis of the third block, to which the two before it jump: the first by both of its jumps, and
/// the second, to which none leads.
const ARGUMENTS: [Line; 7] = [
    Phi("x_3", &["__BB2", "__BB3"]),
    Phi("x_3", &["__BB3", "__BB2"]),
    Phi("!x_3", &[]),
    Phi("!x_3", &["__BB3"]),
    Phi("!x_3", &["__BB2", "__BB3", "__BB2"]),
    Phi("!x_3", &["__BB2", "__BB3", "__BB4"]),
    Phi("!x_3", &["__BB2", "__BB33"]),
];

#[test]
fn arguments_of_a_phi(rt: HostRuntime) -> Result<(), OutOfMemory> {
    for phi in ARGUMENTS {
        let lines = [
            Block("__BB", "2"),
            If("__BB4", "__BB4"),
            Block("__BB", "3"),
            Goto("__BB4"),
            Block("__BB", "4"),
            phi,
            Return("5"),
            Close("}"),
        ];
        assert!(rt; written(rt.alloc(), &lines)?.has_shape(GimpleKind::BadPhi));
    }
    Ok(())
}

const NUMBERS: [&[Line]; 9] = [
    &[
        Local("_999999999"),
        Block("__BB", "999999999"),
        Phi("x_999999998", &["__BB999999999"]),
        Stmt("x_0", "1000000000"),
        If("__BB999999999", "__BB0"),
        Close("}"),
    ],
    &[Local("x_1000000000"), Local("!_1000000000"), Close("}")],
    &[
        Block("__BB", "2"),
        Stmt("!x_1000000000", "_1000000000"),
        Close("}"),
    ],
    &[
        Block("__BB", "2"),
        Stmt("x_2", "!x_1000000000(D)"),
        Close("}"),
    ],
    &[
        Block("__BB", "!1000000000"),
        Goto("__BB1000000000"),
        Close("}"),
    ],
    &[Block("__BB", "2"), Goto("!__BB1000000000"), Close("}")],
    &[
        Block("__BB", "2"),
        If("__BB2", "!__BB10000000000"),
        Close("}"),
    ],
    &[
        Block("__BB", "2"),
        Phi("x_2", &["__BB2", "!__BB1000000000"]),
        Close("}"),
    ],
    &[
        Block("__BB", "2"),
        Return("5"),
        Close("}"),
        Block("__BB", "2"),
        Return("!x_9999999999999999999999999999"),
        Close("}"),
    ],
];

#[test]
fn large_numbers(rt: HostRuntime) -> Result<(), OutOfMemory> {
    assert!(rt; each_keeps_limits(rt.alloc(), &NUMBERS)?);
    Ok(())
}

/// Writes this many blocks, numbered from 0.
fn put_blocks(writer: &mut Writer, count: u32) -> Result<(), OutOfMemory> {
    for number in 0..count {
        let number = format!(in writer.alloc; "{number}")?;
        writer.line(&Block("__BB", &number))?;
    }
    Ok(())
}

#[test]
fn blocks_up_to_the_limit(rt: HostRuntime) -> Result<(), OutOfMemory> {
    let mut writer = Writer::new(rt.alloc());
    // the limit is for each function by itself
    put_blocks(&mut writer, 1)?;
    writer.line(&Close("}"))?;
    put_blocks(&mut writer, 2000)?;
    writer.line(&Close("}"))?;
    assert!(rt; writer.keeps_limits());
    put_blocks(&mut writer, 2000)?;
    writer.line(&Block("__BB", "!2000"))?;
    writer.line(&Block("__BB", "2001"))?;
    writer.line(&Close("}"))?;
    assert!(rt; writer.keeps_limits());
    Ok(())
}

/// Writes a function with 20,000 names and one use more.
fn put_names(writer: &mut Writer, last: &str) -> Result<(), OutOfMemory> {
    // one name that is declared, and 19,999 that are assigned; a local with a base is none
    writer.line(&Local("_70000"))?;
    writer.line(&Local("x_80000"))?;
    writer.line(&Block("__BB", "2"))?;
    for version in 0..19999u32 {
        let name = format!(in writer.alloc; "x_{version}")?;
        writer.line(&Stmt(&name, &name))?;
    }
    writer.line(&Stmt("_70000", last))?;
    writer.line(&Close("}"))
}

#[test]
fn names_up_to_the_limit(rt: HostRuntime) -> Result<(), OutOfMemory> {
    let mut writer = Writer::new(rt.alloc());
    put_names(&mut writer, "x_0")?;
    assert!(rt; writer.keeps_limits());
    put_names(&mut writer, "!x_20000")?;
    assert!(rt; writer.keeps_limits());
    Ok(())
}
