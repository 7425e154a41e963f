// Rule 35: the branches' targets.
ghost use Rattle.std.specs.Prelude.{◌≡◌, ◌*◌, ◌<◌};
ghost use Rattle.sheet.specs.Sheets.{code_words_of};
ghost use Rattle.inspector.specs.Targets.{distance, lands, misses, misses_target};
ghost use Rattle.inspector.specs.Scan.{shape_at};
ghost use Rattle.inspector.specs.Verdicts.{lowest};
ghost use Rattle.inspector.specs.ForCode.Forms.{found_of};

use crate::scan::Scanned;
use crate::shapes::Mark;
use machine::landing;
use syllable::{Branch, Operator, Syllable};

impl Scanned<'_> {
    // A syllable of the code, by its number in core, with an empty shape before it.
    fn lands(&self, t: usize) -> bool
        ensures { result ≡ lands self.now.segment.now.core.now self.now.segment.now.sheet.now t }
    {
        let origin = self.segment.origin() as usize;
        origin <= t
            && t < origin + self.segment.syllables() as usize
            && matches!(self.marks[t - origin], Mark::Empty)
    }

    // A branch at syllable i, over the literal d, whose target is outside the code or has a shape not empty.
    fn misses(&self, i: u16, d: u16, back: bool) -> bool
        requires { (i < 4 * code_words_of self.now.segment.now.sheet.now) × (d ≡ distance (shape_at self.now.segment.now.core.now self.now.segment.now.sheet.now i)) }
        ensures { result ≡ misses self.now.segment.now.core.now self.now.segment.now.sheet.now i back }
    {
        let next = (self.segment.origin() + i as u32 + 1) % 131072;
        // "counted as the machine counts it"
        match landing(back, next, d) {
            Ok(t) => !self.lands(t),
            Err(_) => true,
        }
    }

    // The i-th syllable is a branch that misses.
    #[tactic(auto, unfolding(crate::specs::Targets::misses_target), using(crate::proofs::Goings::distance_is))]
    fn misses_target(&self, i: u16) -> bool
        requires { i < 4 * code_words_of self.now.segment.now.sheet.now }
        ensures { result ≡ misses_target self.now.segment.now.core.now self.now.segment.now.sheet.now i }
    {
        // A branch that passed the scan stands over a literal: the other syllables need not be read.
        let Mark::Literal(d) = self.marks[i as usize] else {
            return false;
        };
        match self.segment.syllable(i) {
            Syllable::Operator(Operator::Branch(Branch::Bfw | Branch::Bfc)) => {
                self.misses(i, d, false)
            }
            Syllable::Operator(Operator::Branch(Branch::Bbw | Branch::Bbc)) => {
                self.misses(i, d, true)
            }
            _ => false,
        }
    }

    // "35, lowest branch whose target .. is outside the code or has a shape not empty."
    pub(crate) fn target(&self) -> Option<u16>
        ensures { found_of result ≡ lowest (misses_target self.now.segment.now.core.now self.now.segment.now.sheet.now) (4 * code_words_of self.now.segment.now.sheet.now) 0 }
    {
        (0..self.segment.syllables()).find(|&i| self.misses_target(i))
    }
}
