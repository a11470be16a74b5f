//! Reading a pattern file of the first form.
ghost use Rattle.std.specs.Prelude.{◌≡◌, ◌⊎◌, List, IfOk};
ghost use Rattle.first_patterns.specs.declared.row.Row.{Row};
ghost use Rattle.first_patterns.specs.FirstForm.{SpellsFile};
ghost use Rattle.first_patterns.specs.Reading.{AnswersRows, Gives, pattern_at, row_at, rows_of};
ghost use Rattle.first_patterns.specs.Reading.{side_named};

use crate::fault::ReadFault;
use crate::row::{Row, Side};
use crate::tokens::{after_gap, apart_capture_at, capture_at, code_at, strip, token_at};
use pm_items::Items;
use pm_ops::Code;
use std::alloc::Global;

/// How many rows a file may have.
const MAX_ROWS: usize = 65536;

/// Which capture of the pattern this one is: the left one where it is both.
#[tactic(auto, unfolding(crate::specs::Reading::side_named))]
fn side_named(left: &[u8], right: &[u8], capture: &[u8]) -> Option<Side>
    ensures { result ≡ side_named left.now right.now capture.now }
{
    if capture == left {
        Some(Side::Left)
    } else if capture == right {
        Some(Side::Right)
    } else {
        None
    }
}

/// A pattern `(op X Y)`, with the digits of X and Y.
#[derive(Clone, Copy)]
struct Pattern<'a> {
    code: Code,
    left: &'a [u8],
    right: &'a [u8],
}

#[tactic(auto, unfolding(crate::specs::Reading::pattern_at))]
fn pattern_at(bytes: &[u8]) -> Option<(Pattern<'_>, &[u8])>
    ensures { Gives (λ x. ((x.0.code, x.0.left.now, x.0.right.now), x.1.now)) result (pattern_at bytes.now) }
{
    let inner = token_at(b"(", bytes)?;
    let (code, rest) = code_at(after_gap(inner))?;
    let (left, rest) = apart_capture_at(rest)?;
    let (right, rest) = apart_capture_at(rest)?;
    let rest = token_at(b")", rest)?;
    Some((Pattern { code, left, right }, rest))
}

/// The row of the form that begins with these bytes, at byte number `at` of the file.
#[tactic(auto, unfolding(crate::specs::Reading::row_at))]
fn row_at(at: usize, bytes: &[u8]) -> Option<(Row, &[u8])>
    ensures { Gives (λ x. (x.0, x.1.now)) result (row_at at bytes.now) }
{
    let inner = strip(b"(", bytes)?;
    let rest = token_at(b"simplify", inner)?;
    let (pattern, rest) = pattern_at(rest)?;
    let (capture, rest) = capture_at(after_gap(rest))?;
    let rest = token_at(b")", rest)?;
    let result = side_named(pattern.left, pattern.right, capture)?;
    let row = Row {
        at,
        code: pattern.code,
        same: pattern.left == pattern.right,
        result,
    };
    Some((row, rest))
}

/// The rows of the whole file.
fn all_rows(alloc: Global, source: &[u8]) -> Result<Items<Row>, ReadFault>
    ensures { AnswersRows result (rows_of source.now) }
{
    let mut rows = Items::new(alloc);
    let mut rest = after_gap(source);
    for _ in 0..MAX_ROWS {
        if rest.is_empty() {
            return Ok(rows);
        }
        let at = source.len() - rest.len();
        let Some((row, behind)) = row_at(at, rest) else {
            return Err(ReadFault::NotFirst);
        };
        rows.push(row)?;
        rest = after_gap(behind);
    }
    if rest.is_empty() {
        Ok(rows)
    } else {
        Err(ReadFault::NotFirst)
    }
}

/// The rows of a pattern file of the first form: at most 65,536 forms `(simplify (op X Y) Z)` with
/// white space around them, and no comments. `op` is `plus`, `minus`, `mult`, `bit_and`, `bit_ior` or
/// `bit_xor`. X, Y and Z are captures, `@` and digits, and Z is X or Y as spelled. White space within
/// a form is free, but it has to stand before X and before Y.
pub fn read(alloc: Global, source: &[u8]) -> Result<Items<Row>, ReadFault>
    // What is read is what the file spells.
    ensures found { IfOk result (λ rows. SpellsFile rows source.now) }

    // What the file spells is read, unless memory runs out.
    ensures only { (rows : List Row) → SpellsFile rows source.now
        → (result ≡ Ok rows) ⊎ (result ≡ Err ReadFault.Memory) }

    // A file is refused as not of the first form only if it spells no rows at all.
    ensures refused { result ≡ Err ReadFault.NotFirst → (rows : List Row) → ¬ (SpellsFile rows source.now) }
{
    all_rows(alloc, source)
}
