// Why a proof writes no further lemma.
ghost use Rattle.std.specs.Prelude.{◌≡◌};
ghost use Rattle.lls_drat.specs.FaultText.{fault_name, fault_place, fault_column};

use lls_prooflog::LineFault;
use std::fmt;

/// Why a proof writes no further lemma. Lines and the places of bytes are counted from 1.
#[derive(Clone, Copy, Debug, PartialEq, Eq)]
pub enum DratFault {
    /// The line writes no lemma.
    Line(u64, LineFault),
    /// The byte at this place stands where a lemma begins, and is neither `a` nor `d`.
    Head(u64),
    /// The number whose first byte is at this place writes no literal.
    Range(u64),
    /// The lemma that begins at this place has no end.
    Cut(u64),
}

impl DratFault {
    /// The fault's name.
    pub fn name(&self) -> &'static str
        ensures { result.now ≡ fault_name self.now }
    {
        match self {
            DratFault::Line(_, fault) => fault.name(),
            DratFault::Head(_) => "BadHead",
            DratFault::Range(_) => "Range",
            DratFault::Cut(_) => "Cut",
        }
    }

    /// The line, or the place of a byte in the proof.
    pub fn place(&self) -> u64
        ensures { result ≡ fault_place self.now }
    {
        match *self {
            DratFault::Line(place, _)
            | DratFault::Head(place)
            | DratFault::Range(place)
            | DratFault::Cut(place) => place,
        }
    }

    /// The column at which the fault of a line stands; none where the line ends too early.
    pub fn column(&self) -> Option<u64>
        ensures { result ≡ fault_column self.now }
    {
        match self {
            DratFault::Line(_, fault) => fault.column(),
            DratFault::Head(_) | DratFault::Range(_) | DratFault::Cut(_) => None,
        }
    }
}

impl fmt::Display for DratFault {
    ghost use Rattle.std.specs.Prelude.{Some};
    ghost use Rattle.lls_drat.specs.FaultText.{fault_text};

    ghost output = { λ fault. Some (fault_text fault) };

    fn fmt<W: fmt::Write>(&self, f: &mut fmt::Formatter<W>) -> fmt::Result {
        let name = self.name();
        let place = self.place();
        match self.column() {
            Some(column) => write!(f, "{name} {place} {column}"),
            None => write!(f, "{name} {place}"),
        }
    }
}
