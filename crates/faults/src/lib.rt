// The faults of a recording. Each keeps its place, the first byte of its record, and has a layer and a number.

#![tactic(auto)]

ghost use Rattle.std.specs.Prelude.{◌≡◌, ℕ, Bool, true, [], ◌∷◌, Some};
ghost use Rattle.faults.specs.declared.Layer.{Layer};
ghost use Rattle.faults.specs.declared.RecordFault.TheVariants.{Number, Layout};
ghost use Rattle.faults.specs.Faults.{layer_letter, number_fault_number, fault_place, fault_layer, fault_number, ends_run};
ghost use Rattle.faults.specs.Marks.{marked};

use std::fmt;

/// Where a fault lies: in a number, in a record's layout, or in a call that the terminal refused.
#[derive(Clone, Copy, Debug, PartialEq, Eq)]
pub enum Layer {
    Number = 0x4e,
    Record = 0x52,
    Terminal = 0x54,
}

/// The layer's letter: N, R or T.
impl From<Layer> for char {
    ghost from_gives = { λ layer letter. letter ≡ layer_letter layer };

    fn from(layer: Layer) -> char {
        // A discriminant: no `From` gives it.
        layer as u8 as char
    }
}

impl fmt::Display for Layer {
    ghost output = { λ layer. Some (layer_letter layer ∷ []) };

    fn fmt<W: fmt::Write>(&self, f: &mut fmt::Formatter<W>) -> fmt::Result {
        f.write_char(char::from(*self))
    }
}

/// A fault: where its record begins, what it lies in, its number, and what it means for the run.
pub trait Fault: Copy {
    ghost place: { Self → ℕ };

    ghost layer: { Self → Layer };

    ghost number: { Self → ℕ };

    ghost ends_run: { Self → Bool };

    /// The first byte of the record, counted from 0.
    fn place(self) -> usize
        ensures { result ≡ place self };

    fn layer(self) -> Layer
        ensures { result ≡ layer self };

    // Methods and no `From`, since a fault has several numbers: its place, its layer's letter and this one.
    fn number(self) -> u8
        ensures { result ≡ number self };

    /// Whether nothing after the record can be read: 10, 11 and 12 end the run, and after any other it goes on.
    fn ends_run(self) -> bool
        ensures { result ≡ ends_run self };

    /// What is printed of the fault.
    final fn mark(self) -> Mark
        ensures { result ≡ record { place = place self; layer = layer self; number = number self } }
    {
        Mark {
            place: self.place(),
            layer: self.layer(),
            number: self.number(),
        }
    }
}

/// What is printed of a fault: `!`, its place, its layer's letter and its number.
#[derive(Clone, Copy, Debug, PartialEq, Eq)]
pub struct Mark {
    pub place: usize,
    pub layer: Layer,
    pub number: u8,
}

impl fmt::Display for Mark {
    ghost output = { λ m. Some (marked m.place (layer_letter m.layer) m.number) };

    fn fmt<W: fmt::Write>(&self, f: &mut fmt::Formatter<W>) -> fmt::Result {
        let Mark {
            place,
            layer,
            number,
        } = *self;
        write!(f, "! {place} {layer} {number}")
    }
}

/// What is wrong with a number.
#[derive(Clone, Copy, Debug, PartialEq, Eq)]
pub enum NumberFaultKind {
    /// The bytes end before or inside the number.
    Truncated = 10,
    /// The number has over five bytes, is over 4,294,967,295, or is not in its shortest form.
    Malformed = 11,
}

impl NumberFaultKind {
    /// This fault of a number in the record at a place.
    pub fn at(self, place: usize) -> NumberFault
        ensures { result ≡ record { place = place; kind = self } }
    {
        NumberFault { place, kind: self }
    }
}

/// A number that cannot be read, and the place of its record.
#[derive(Clone, Copy, Debug, PartialEq, Eq)]
pub struct NumberFault {
    pub place: usize,
    pub kind: NumberFaultKind,
}

impl Fault for NumberFault {
    ghost place = { λ fault. fault.place };

    ghost layer = { λ _. Layer.Number };

    ghost number = { number_fault_number };

    ghost ends_run = { λ _. true };

    fn place(self) -> usize {
        self.place
    }

    fn layer(self) -> Layer {
        Layer::Number
    }

    fn number(self) -> u8 {
        // A discriminant, as below.
        self.kind as u8
    }

    fn ends_run(self) -> bool {
        true
    }
}

/// What is wrong with a record whose length and numbers can be read.
#[derive(Clone, Copy, Debug, PartialEq, Eq)]
pub enum LayoutFaultKind {
    /// An empty body, an unknown letter, bytes left over, or a note that is not text.
    BadBody = 12,
    /// A want, a settle or a drop where no subframe is open.
    NoOpenSubframe = 13,
}

impl LayoutFaultKind {
    /// This fault of the record at a place.
    pub fn at(self, place: usize) -> RecordFault
        ensures { result ≡ Layout place self }
    {
        RecordFault::Layout { place, kind: self }
    }
}

/// Why a record is refused.
#[derive(Clone, Copy, Debug, PartialEq, Eq)]
pub enum RecordFault {
    Number(NumberFault),
    Layout { place: usize, kind: LayoutFaultKind },
}

// By hand: `from_gives` says what `?` makes of the fault, which the clauses of callers name.
impl From<NumberFault> for RecordFault {
    ghost from_gives = { λ e r. r ≡ Number e };

    fn from(fault: NumberFault) -> Self {
        Self::Number(fault)
    }
}

impl Fault for RecordFault {
    ghost place = { fault_place };

    ghost layer = { fault_layer };

    ghost number = { fault_number };

    ghost ends_run = { ends_run };

    fn place(self) -> usize {
        match self {
            RecordFault::Number(fault) => fault.place(),
            RecordFault::Layout { place, .. } => place,
        }
    }

    fn layer(self) -> Layer {
        match self {
            RecordFault::Number(fault) => fault.layer(),
            RecordFault::Layout { .. } => Layer::Record,
        }
    }

    fn number(self) -> u8 {
        match self {
            RecordFault::Number(fault) => fault.number(),
            RecordFault::Layout { kind, .. } => kind as u8,
        }
    }

    fn ends_run(self) -> bool {
        match self {
            RecordFault::Number(fault) => fault.ends_run(),
            RecordFault::Layout { kind, .. } => kind == LayoutFaultKind::BadBody,
        }
    }
}
