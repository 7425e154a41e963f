// Rule 34: shapes, and what each syllable leaves of one.
ghost use Rattle.std.specs.Prelude.{◌≡◌, ◌≤◌, [], ◌∷◌};
ghost use Rattle.inspector.specs.Scan.{leaves, value, writable, called_over, two_values, one_value, tested, exchanged, doubled, deleted, loaded, stored, branched, branched_if, communicated, logic_left, branch_left, operator_left, syllable_left};
ghost use Rattle.inspector.specs.ForCode.Forms.{item_of, mark_told, Popped, Turned};
ghost use Rattle.sheet.specs.Sheets.{cell_of};

use crate::segments::{Kind, Segment};
use std::marker::Model;
use syllable::{Branch, Logic, Operator, Syllable};

// "items are literal k, number, place"
#[derive(Clone, Copy)]
pub enum Item {
    Literal(u16),
    Number,
    Place,
}

impl Item {
    // "a literal or number"
    fn is_value(self) -> bool
        ensures { result ≡ value (item_of self) }
    {
        !matches!(self, Item::Place)
    }

    // "at a place or a literal naming a number cell"
    fn writable(self, segment: &Segment) -> bool
        ensures { result ≡ writable segment.now.sheet.now (item_of self) }
    {
        match self {
            Item::Literal(k) => segment.is_number_cell(k),
            Item::Number => false,
            Item::Place => true,
        }
    }
}

// What rule 35 must know of a shape: whether it is empty, and the literal on top.
#[derive(Clone, Copy)]
pub enum Mark {
    Empty,
    Literal(u16),
    Other,
}

// A stack of items, of at most `room`.
#[derive(Drop)]
pub struct Shape {
    items: [Item; 1024],
    height: usize,
    room: usize,
}

impl Model for Shape {
    ghost use Rattle.std.specs.Prelude.{◌≤◌};
    ghost use Rattle.inspector.specs.ForCode.Forms.{Held, stacked};

    ghost Value = { Held };

    ghost view = { λ s. record { items = stacked s.items s.height; room = s.room } };

    ghost invariant = { λ s. (s.height ≤ s.room) × (s.room ≤ 1024) };
}

impl Shape {
    // "Shapes start empty"
    pub(crate) fn new(room: u16) -> Shape
        requires { room ≤ 1024 }
        ensures { result ≡ record { items = []; room = room } }
    {
        Shape {
            items: [Item::Literal(0); 1024],
            height: 0,
            room: room as usize,
        }
    }

    pub(crate) fn mark(&self) -> Mark
        ensures { result ≡ mark_told self.now.items }
    {
        let Some(top) = self.height.checked_sub(1) else {
            return Mark::Empty;
        };
        match self.items[top] {
            Item::Literal(k) => Mark::Literal(k),
            _ => Mark::Other,
        }
    }

    fn pop(&mut self) -> Option<Item>
        ensures { Popped self.old result self.new }
    {
        self.height = self.height.checked_sub(1)?;
        Some(self.items[self.height])
    }

    // "Too few items, or more than d, breaks."
    fn push(&mut self, x: Item) -> Option<()>
        ensures { Turned (λ xs. leaves (item_of x ∷ xs)) self.old result self.new }
    {
        if self.height < self.room {
            self.items[self.height] = x;
            self.height += 1;
            return Some(());
        }
        None
    }

    // A call of cell k gives an item: "of a number cell, or of an array cell over a literal or number".
    fn called_over(&mut self, segment: &Segment, k: u16, x: Item) -> Option<()>
        ensures { Turned (called_over (cell_of segment.now.sheet.now k) (item_of x)) self.old result self.new }
    {
        match segment.kind(k) {
            Kind::Number => self.push(x),
            Kind::Array => {
                if self.pop()?.is_value() {
                    return self.push(x);
                }
                None
            }
            Kind::Closed => None,
        }
    }

    // "over literals or numbers (all give numbers)": two items, one item.
    fn two_values(&mut self) -> Option<()>
        ensures { Turned two_values self.old result self.new }
    {
        if self.pop()?.is_value() && self.pop()?.is_value() {
            return self.push(Item::Number);
        }
        None
    }

    fn one_value(&mut self) -> Option<()>
        ensures { Turned one_value self.old result self.new }
    {
        if self.pop()?.is_value() {
            return self.push(Item::Number);
        }
        None
    }

    // "TOP and SND keep the word they test or store"
    fn tested(&mut self) -> Option<()>
        ensures { Turned tested self.old result self.new }
    {
        let b = self.pop()?;
        if b.is_value() {
            self.push(b)?;
            return self.push(Item::Number);
        }
        None
    }

    // "XCH, DUP, DEL on anything"
    fn exchanged(&mut self) -> Option<()>
        ensures { Turned exchanged self.old result self.new }
    {
        let a = self.pop()?;
        let b = self.pop()?;
        self.push(a)?;
        self.push(b)
    }

    fn doubled(&mut self) -> Option<()>
        ensures { Turned doubled self.old result self.new }
    {
        let a = self.pop()?;
        self.push(a)?;
        self.push(a)
    }

    fn deleted(&mut self) -> Option<()>
        ensures { Turned deleted self.old result self.new }
    {
        self.pop()?;
        Some(())
    }

    // "LOD, STD, SND at a place or a literal naming a number cell, the stored word a literal or number"
    fn loaded(&mut self, segment: &Segment) -> Option<()>
        ensures { Turned (loaded segment.now.sheet.now) self.old result self.new }
    {
        if self.pop()?.writable(segment) {
            return self.push(Item::Number);
        }
        None
    }

    fn stored(&mut self, segment: &Segment, keep: bool) -> Option<()>
        ensures { Turned (stored segment.now.sheet.now keep) self.old result self.new }
    {
        let a = self.pop()?;
        let b = self.pop()?;
        if a.writable(segment) && b.is_value() {
            return if keep { self.push(b) } else { Some(()) };
        }
        None
    }

    // "a branch on a literal (condition literal or number) leaving an empty shape"
    fn branched(&mut self) -> Option<()>
        ensures { Turned branched self.old result self.new }
    {
        match (self.pop()?, self.pop()) {
            (Item::Literal(_), None) => Some(()),
            _ => None,
        }
    }

    fn branched_if(&mut self) -> Option<()>
        ensures { Turned branched_if self.old result self.new }
    {
        match (self.pop()?, self.pop()?, self.pop()) {
            (Item::Literal(_), b, None) if b.is_value() => Some(()),
            _ => None,
        }
    }

    // "COM on one literal or number with cell 9 a number cell, leaving an empty shape"
    fn communicated(&mut self, segment: &Segment) -> Option<()>
        ensures { Turned (communicated segment.now.sheet.now) self.old result self.new }
    {
        let a = self.pop()?;
        if self.pop().is_none() && a.is_value() && segment.is_number_cell(9) {
            return Some(());
        }
        None
    }

    fn unchanged(&mut self) -> Option<()>
        ensures { Turned (λ xs. leaves xs) self.old result self.new }
    {
        // A place in the shape is named, so that the check takes up the shape's invariant here.
        let _ = &self.height;
        Some(())
    }

    fn logic_left(&mut self, o: Logic) -> Option<()>
        ensures { Turned (logic_left o) self.old result self.new }
    {
        match o {
            Logic::Lnd | Logic::Lor | Logic::Lqv => self.two_values(),
            Logic::Lng => self.one_value(),
        }
    }

    fn branch_left(&mut self, o: Branch) -> Option<()>
        ensures { Turned (branch_left o) self.old result self.new }
    {
        match o {
            Branch::Bfw | Branch::Bbw => self.branched(),
            Branch::Bfc | Branch::Bbc => self.branched_if(),
        }
    }

    // "A syllable may be": what each operator leaves of a shape.
    fn operator_left(&mut self, segment: &Segment, o: Operator) -> Option<()>
        ensures { Turned (operator_left segment.now.sheet.now o) self.old result self.new }
    {
        match o {
            Operator::Arithmetic(_) | Operator::Relation(_) => self.two_values(),
            Operator::Logic(o) => self.logic_left(o),
            Operator::Branch(o) => self.branch_left(o),
            Operator::Mop | Operator::Ssp | Operator::Ssn | Operator::Chs => self.one_value(),
            Operator::Top => self.tested(),
            Operator::Xch => self.exchanged(),
            Operator::Dup => self.doubled(),
            Operator::Del => self.deleted(),
            Operator::Nop => self.unchanged(),
            Operator::Lod => self.loaded(segment),
            Operator::Std => self.stored(segment, false),
            Operator::Snd => self.stored(segment, true),
            Operator::Com => self.communicated(segment),
            Operator::Mds | Operator::Inx | Operator::Mks | Operator::Xit | Operator::NotBuilt(_) =>
                None,
        }
    }

    // "OPDC and LOD give a number, DESC a place"
    pub(crate) fn syllable_left(&mut self, segment: &Segment, y: Syllable) -> Option<()>
        ensures { Turned (syllable_left segment.now.sheet.now y) self.old result self.new }
    {
        match y {
            Syllable::Litc(k) => self.push(Item::Literal(k)),
            Syllable::Opdc(k) => self.called_over(segment, k, Item::Number),
            Syllable::Desc(k) => self.called_over(segment, k, Item::Place),
            Syllable::Operator(o) => self.operator_left(segment, o),
        }
    }
}
