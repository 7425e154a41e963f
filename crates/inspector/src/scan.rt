// Rule 34: the scan, one pass over the syllables.
ghost use Rattle.std.specs.Prelude.{◌≡◌, ◌<◌, ◌+◌, ◌*◌, false, IfNone};
ghost use Rattle.sheet.specs.Sheets.{code_words_of};
ghost use Rattle.inspector.specs.Turns.{turn_of};
ghost use Rattle.inspector.specs.Scan.{closes, breaks_at};
ghost use Rattle.inspector.specs.Verdicts.{lowest};
ghost use Rattle.inspector.specs.ForCode.Forms.{found_of, Before, Passed, Marked};

use crate::segments::Segment;
use crate::shapes::{Mark, Shape};
use syllable::{Branch, Operator, Syllable};

// "The last syllable is COM, BFW or BBW."
fn closes(y: Syllable) -> bool
    ensures { result ≡ closes (turn_of y) }
{
    matches!(
        y,
        Syllable::Operator(Operator::Com | Operator::Branch(Branch::Bfw | Branch::Bbw))
    )
}

// Syllable i breaks the scan; where it does not, the shape becomes that before the next.
#[tactic(auto, using(crate::proofs::Goings::breaks_none, crate::proofs::Goings::breaks_some, crate::proofs::Goings::goes_on))]
fn breaks_at(segment: &Segment, shape: &mut Shape, i: u16) -> bool
    requires { (i < 4 * code_words_of segment.now.sheet.now) × Before segment.now.core.now segment.now.sheet.now i shape.old }
    ensures broken { result ≡ breaks_at segment.now.core.now segment.now.sheet.now i }
    ensures next { result ≡ false → Before segment.now.core.now segment.now.sheet.now (i + 1) shape.new }
{
    let y = segment.syllable(i);
    let last = i + 1 == segment.syllables();
    shape.syllable_left(segment, y).is_none() || last && !closes(y)
}

// The segment whose code the scan has passed, and the marks of the shapes before its syllables.
#[derive(Drop)]
pub struct Scanned<'a> {
    pub segment: &'a Segment<'a>,
    pub marks: &'a [Mark; 4096],
    ghost passed: { Passed segment.now.core.now segment.now.sheet.now (4 * code_words_of segment.now.sheet.now) },
    ghost marked: { Marked marks.now segment.now.core.now segment.now.sheet.now (4 * code_words_of segment.now.sheet.now) },
}

// "34, first syllable breaking the scan." The marks are lent, since a call's stack is small.
pub fn scan(segment: &Segment, marks: &mut [Mark; 4096]) -> Option<u16>
    ensures found { found_of result ≡ lowest (breaks_at segment.now.core.now segment.now.sheet.now) (4 * code_words_of segment.now.sheet.now) 0 }
    ensures passed { IfNone result (Passed segment.now.core.now segment.now.sheet.now (4 * code_words_of segment.now.sheet.now)) }
    ensures marked { IfNone result (Marked marks.new segment.now.core.now segment.now.sheet.now (4 * code_words_of segment.now.sheet.now)) }
{
    let mut shape = Shape::new(segment.room());
    for i in 0..segment.syllables() {
        marks[i as usize] = shape.mark();
        if breaks_at(segment, &mut shape, i) {
            return Some(i);
        }
    }
    None
}
