//! Tables of a function's blocks: their numbers, and which blocks jump to which.

ghost use Rattle.std.specs.Prelude.{◌≡◌, ◌++◌, ℕ, false, List, [], ◌∷◌};
ghost use Rattle.std.specs.Prelude.{OnOk, IfOk, map, if◌then◌else◌};
ghost use Rattle.gim_ast.specs.WellFormed.{same_text};
ghost use Rattle.pm_places.specs.Spans.{text_of};
ghost use Rattle.gim_shape.specs.Blocks.{jumps_to, numbers_of, predecessors};
ghost use Rattle.gim_shape.specs.Tables.{HasTexts, places_for, AreTables};

use crate::text::named_at;
use gim_text::{BlockText, EndText};
use pm_ops::OutOfMemory;
use pm_places::{Span, text};
use std::alloc::Global;
use std::collections::{HashMap, HashSet};

/// For the number of a block, where the numbers of the blocks stand that jump to it.
type Jumps<'a> = HashMap<&'a [u8], Vec<Span>>;

/// Tables of the blocks of a function.
#[derive(Drop)]
pub struct Tables<'a> {
    /// The numbers of the blocks.
    pub(crate) numbers: HashSet<&'a [u8]>,
    /// For the number of a block, where the numbers of the blocks stand that jump to it.
    jumps: Jumps<'a>,
}

/// The texts at the places.
pub(crate) fn texts_at<'a>(
    alloc: Global,
    source: &'a [u8],
    places: &[Span],
) -> Result<HashSet<&'a [u8]>, OutOfMemory>
    ensures { IfOk result (λ set. HasTexts set (map (text_of source.now) places.now)) }
{
    let mut set = HashSet::new(alloc);
    for place in places {
        set.insert(text(source, *place))?;
    }
    Ok(set)
}

/// The numbers of the blocks.
fn numbers<'a>(
    alloc: Global,
    source: &'a [u8],
    blocks: &[BlockText],
) -> Result<HashSet<&'a [u8]>, OutOfMemory>
    ensures { IfOk result (λ set. HasTexts set (numbers_of source.now blocks.now)) }
{
    let mut set = HashSet::new(alloc);
    for block in blocks {
        set.insert(text(source, block.number))?;
    }
    Ok(set)
}

/// Takes out what the table has for a number.
fn take_places<'a>(alloc: Global, jumps: &mut Jumps<'a>, to: &'a [u8]) -> Vec<Span>
    ensures places { result.items ≡ places_for jumps.old to.now }
    ensures others { (q : List ℕ) → same_text to.now q ≡ false →
        places_for jumps.new q ≡ places_for jumps.old q }
{
    match jumps.remove(&to) {
        Some(places) => places,
        None => Vec::new(alloc),
    }
}

/// Adds a jump.
fn put_jump<'a>(
    alloc: Global,
    jumps: &mut Jumps<'a>,
    to: &'a [u8],
    from: Span,
) -> Result<(), OutOfMemory>
    ensures { OnOk result ((q : List ℕ) → places_for jumps.new q ≡ places_for jumps.old q ++
        (if same_text q to.now then from ∷ [] else [])) }
{
    let mut places = take_places(alloc, jumps, to);
    places.push(from)?;
    jumps.insert(to, places)?;
    Ok(())
}

/// Adds the jumps of a block.
fn put_jumps<'a>(
    alloc: Global,
    source: &'a [u8],
    jumps: &mut Jumps<'a>,
    block: &BlockText,
) -> Result<(), OutOfMemory>
    ensures { OnOk result ((q : List ℕ) → places_for jumps.new q ≡ places_for jumps.old q ++
        (if jumps_to source.now q block.now then block.now.number ∷ [] else [])) }
{
    match block.end {
        Some(EndText::Goto(at)) => put_jump(alloc, jumps, named_at(source, at), block.number),
        Some(EndText::If(_, _, _, to, otherwise)) => {
            let first = named_at(source, to);
            let second = named_at(source, otherwise);
            put_jump(alloc, jumps, first, block.number)?;
            if first == second {
                return Ok(());
            }
            put_jump(alloc, jumps, second, block.number)
        }
        Some(EndText::Return(_)) | None => Ok(()),
    }
}

/// The table of the jumps between blocks.
fn jumps<'a>(
    alloc: Global,
    source: &'a [u8],
    blocks: &[BlockText],
) -> Result<Jumps<'a>, OutOfMemory>
    ensures { IfOk result (λ jumps. (q : List ℕ) →
        places_for jumps q ≡ predecessors source.now blocks.now q) }
{
    let mut jumps = HashMap::new(alloc);
    for block in blocks {
        put_jumps(alloc, source, &mut jumps, block)?;
    }
    Ok(jumps)
}

impl<'a> Tables<'a> {
    /// The tables of these blocks.
    pub(crate) fn of(
        alloc: Global,
        source: &'a [u8],
        blocks: &[BlockText],
    ) -> Result<Tables<'a>, OutOfMemory>
        ensures { IfOk result (λ tables. AreTables source.now blocks.now tables) }
    {
        let numbers = numbers(alloc, source, blocks)?;
        let jumps = jumps(alloc, source, blocks)?;
        Ok(Tables { numbers, jumps })
    }

    /// Where the numbers of the blocks stand that jump to the block of this number.
    pub(crate) fn predecessors(&self, number: &'a [u8]) -> &[Span]
        ensures { result.now ≡ places_for self.now.jumps number.now }
    {
        match self.jumps.get(&number) {
            Some(places) => places.as_slice(),
            None => &[],
        }
    }
}
