//! A message sealed and opened in each of ten ways, and what differs from the message as it was given.
ghost use Rattle.std.specs.Prelude.{◌≡◌, Some, IfOk, Decides, OnOk};
ghost use Rattle.sss.specs.Asked.{Asked};
ghost use Rattle.vectors.specs.declared.compare.Stopped.TheVariants.{Refused, NoMemory};
ghost use Rattle.vectors.specs.Texts.{function_text, coefficient_text, way_text, comparison_text, difference_text, part_text, stopped_text};
ghost use Rattle.vectors.specs.Refusals.{Takes, TakesWay};
ghost use Rattle.vectors.specs.Ways.{Made, Holds, NoneExactly, Noted, Finds, Both, FromKeyWays, TableWays, AllWays};

use crate::vector::Vector;
use functions::{FieldRule, FilledTable, FromKey, GivenTable, LazyTable, PrintedTable};
use sss::{Coefficient, Fault, KeyedFunction, MaskedWord};
use std::alloc::{AllocError, AllocFailed, Global};
use std::fmt;

/// An implementation of the keyed function.
#[derive(Clone, Copy)]
pub enum FunctionName {
    FromKey,
    FilledTable,
    GivenTable,
    LazyOverKey,
    LazyTwice,
}

impl fmt::Display for FunctionName {
    ghost output = { λ function. Some (function_text function) };

    fn fmt<W: fmt::Write>(&self, f: &mut fmt::Formatter<W>) -> fmt::Result {
        match self {
            FunctionName::FromKey => write!(f, "FromKey"),
            FunctionName::FilledTable => write!(f, "FilledTable"),
            FunctionName::GivenTable => write!(f, "GivenTable"),
            FunctionName::LazyOverKey => write!(f, "LazyTable over FromKey"),
            FunctionName::LazyTwice => write!(f, "LazyTable over LazyTable over FilledTable"),
        }
    }
}

/// An implementation of the coefficient.
#[derive(Clone, Copy)]
pub enum CoefficientName {
    PrintedTable,
    FieldRule,
}

impl fmt::Display for CoefficientName {
    ghost output = { λ coefficient. Some (coefficient_text coefficient) };

    fn fmt<W: fmt::Write>(&self, f: &mut fmt::Formatter<W>) -> fmt::Result {
        match self {
            CoefficientName::PrintedTable => write!(f, "PrintedTable"),
            CoefficientName::FieldRule => write!(f, "FieldRule"),
        }
    }
}

/// One way to seal and open.
#[derive(Clone, Copy)]
pub struct Way {
    pub function: FunctionName,
    pub coefficient: CoefficientName,
}

impl fmt::Display for Way {
    ghost output = { λ way. Some (way_text way) };

    fn fmt<W: fmt::Write>(&self, f: &mut fmt::Formatter<W>) -> fmt::Result {
        let function = self.function;
        let coefficient = self.coefficient;
        write!(f, "{function} with {coefficient}")
    }
}

/// What is compared in each way.
#[derive(Clone, Copy)]
pub enum Comparison {
    Wire,
    SealedTag,
    Plaintext,
    OpenedTag,
}

impl Comparison {
    /// All that are compared, in the order in which they are reported.
    const ALL: [Comparison; 4] = [
        Comparison::Wire,
        Comparison::SealedTag,
        Comparison::Plaintext,
        Comparison::OpenedTag,
    ];
}

impl fmt::Display for Comparison {
    ghost output = { λ comparison. Some (comparison_text comparison) };

    fn fmt<W: fmt::Write>(&self, f: &mut fmt::Formatter<W>) -> fmt::Result {
        match self {
            Comparison::Wire => write!(f, "the sealed words differ from the wire"),
            Comparison::SealedTag => write!(f, "the tag of sealing differs"),
            Comparison::Plaintext => write!(f, "the opened words differ from the plaintext"),
            Comparison::OpenedTag => write!(f, "the tag of opening differs"),
        }
    }
}

/// A comparison that failed.
#[derive(Clone, Copy)]
pub struct Difference {
    pub way: Way,
    pub comparison: Comparison,
}

impl fmt::Display for Difference {
    ghost output = { λ difference. Some (difference_text difference) };

    fn fmt<W: fmt::Write>(&self, f: &mut fmt::Formatter<W>) -> fmt::Result {
        let way = self.way;
        let comparison = self.comparison;
        write!(f, "{way}: {comparison}")
    }
}

/// Why a message was not compared.
#[derive(Clone, Copy, Debug)]
pub enum Stopped {
    /// The library refused the key, the table or the nonce.
    Refused(Fault),
    /// There was no memory to work in.
    NoMemory,
}

impl fmt::Display for Stopped {
    ghost output = { λ why. Some (stopped_text why) };

    fn fmt<W: fmt::Write>(&self, f: &mut fmt::Formatter<W>) -> fmt::Result {
        match self {
            Stopped::Refused(fault) => {
                let part = part(fault);
                let number = fault.number();
                write!(f, "{part} is refused, fault {number}")
            }
            Stopped::NoMemory => write!(f, "no memory to compare it"),
        }
    }
}

// Which of the two comes of which error is promised by `from_gives`, which no derive writes.
impl From<Fault> for Stopped {
    ghost from_gives = { λ fault r. r ≡ Refused fault };

    fn from(fault: Fault) -> Stopped {
        Stopped::Refused(fault)
    }
}

impl From<AllocError> for Stopped {
    ghost from_gives = { λ _ r. r ≡ NoMemory };

    fn from(_e: AllocError) -> Stopped {
        Stopped::NoMemory
    }
}

impl<T: Drop> From<AllocFailed<T>> for Stopped {
    ghost from_gives = { λ _ r. r ≡ NoMemory };

    fn from(_e: AllocFailed<T>) -> Stopped {
        Stopped::NoMemory
    }
}

/// The part of a message that a fault is about.
fn part(fault: &Fault) -> &'static str
    ensures { result.now ≡ part_text fault.now }
{
    match fault {
        Fault::Key => "the key",
        Fault::Table => "the table",
        Fault::Nonce => "the nonce",
        Fault::Exhausted | Fault::Full => "the message",
        Fault::UnknownCommand(_) | Fault::CutOff(_) | Fault::NoRoom(_) => "the tape",
        Fault::Input | Fault::TooLong => "the input",
        Fault::Masks => "the masks",
        Fault::Output => "the output",
        Fault::TagLength | Fault::TagDiffers => "the tag",
    }
}

/// What sealing and opening a message in one way gave.
#[derive(Drop)]
pub struct Outcome {
    pub wire: Vec<MaskedWord>,
    pub sealed_tag: [u16; 8],
    pub plaintext: Vec<MaskedWord>,
    pub opened_tag: [u16; 8],
}

impl Outcome {
    /// Seals the message's plaintext, and opens its wire words.
    fn of<K: KeyedFunction, C: Coefficient>(
        heap: Global,
        f: &mut K,
        a: &C,
        vector: &Vector,
    ) -> Result<Outcome, Stopped>
        ensures fits { TakesWay vector.now result }
        ensures made { Asked K.KeyedFunction f.old f.new (λ g. IfOk result (Made g (C.image a.now) vector.now)) }
    {
        let mut wire = Vec::from_slice(heap, &vector.plaintext)?;
        let sealed_tag = sss::seal_message(f, a, &vector.nonce, &mut wire)?;
        let mut plaintext = Vec::from_slice(heap, &vector.wire)?;
        let opened_tag = sss::open_message(f, a, &vector.nonce, &mut plaintext)?;
        Ok(Outcome {
            wire,
            sealed_tag,
            plaintext,
            opened_tag,
        })
    }

    /// Whether what is compared is as the message has it.
    fn holds(&self, vector: &Vector, comparison: Comparison) -> bool
        ensures value { Decides result (Holds self.now vector.now comparison) }
    {
        match comparison {
            Comparison::Wire => self.wire == vector.wire,
            Comparison::SealedTag => self.sealed_tag == vector.tag,
            Comparison::Plaintext => self.plaintext == vector.plaintext,
            Comparison::OpenedTag => self.opened_tag == vector.tag,
        }
    }
}

/// The comparing of a message, and what differs in the ways tried so far.
#[derive(Drop)]
pub struct Comparer<'a> {
    pub vector: &'a Vector,
    pub found: Vec<Difference>,
}

impl Comparer<'_> {
    /// Adds each comparison of this way that fails. The outcome is let go here: a long message is held in memory for one way at a time.
    fn note(&mut self, way: Way, outcome: Outcome) -> Result<(), AllocError>
        ensures { OnOk result (Finds (Noted outcome way) self.old self.new) }
    {
        for comparison in Comparison::ALL {
            if !outcome.holds(self.vector, comparison) {
                self.found.push(Difference { way, comparison })?;
            }
        }
        Ok(())
    }

    /// Seals and opens the message with both coefficients, and adds what differs.
    // The two halves differ in a type and in its name: a function of one way, with its contract, is longer than both.
    fn two_ways<K: KeyedFunction>(
        &mut self,
        f: &mut K,
        function: FunctionName,
    ) -> Result<(), Stopped>
        ensures fits { TakesWay self.old.vector.now result }
        ensures found { Asked K.KeyedFunction f.old f.new (λ g. OnOk result (Finds (λ v. Both g v function) self.old self.new)) }
    {
        let printed = Outcome::of(*self.found.allocator(), f, &PrintedTable, self.vector)?;
        self.note(
            Way {
                function,
                coefficient: CoefficientName::PrintedTable,
            },
            printed,
        )?;
        let ruled = Outcome::of(*self.found.allocator(), f, &FieldRule, self.vector)?;
        self.note(
            Way {
                function,
                coefficient: CoefficientName::FieldRule,
            },
            ruled,
        )?;
        Ok(())
    }

    // Written out, and no table of ways: each function has a type of its own, and most are made from the one before.

    /// The ways that compute the keyed function from the key.
    fn ways_from_key(&mut self) -> Result<(), Stopped>
        ensures fits { Takes self.old.vector.now result }
        ensures found { OnOk result (Finds FromKeyWays self.old self.new) }
    {
        let mut computed = FromKey::of(&self.vector.key)?;
        self.two_ways(&mut computed, FunctionName::FromKey)?;
        let mut lazy = LazyTable::new(computed);
        self.two_ways(&mut lazy, FunctionName::LazyOverKey)
    }

    /// The ways that look the keyed function up in a filled table.
    fn ways_from_table(&mut self) -> Result<(), Stopped>
        ensures fits { Takes self.old.vector.now result }
        ensures found { OnOk result (Finds TableWays self.old self.new) }
    {
        let mut filled = FilledTable::of(&self.vector.key)?;
        self.two_ways(&mut filled, FunctionName::FilledTable)?;
        let mut given = GivenTable::new();
        given.load(filled.entries())?;
        self.two_ways(&mut given, FunctionName::GivenTable)?;
        let mut lazy = LazyTable::new(LazyTable::new(filled));
        self.two_ways(&mut lazy, FunctionName::LazyTwice)
    }
}

/// Seals and opens the message in every way; answers what differs, which is nothing exactly where the message is as the published cipher has it.
pub(crate) fn differences(heap: Global, vector: &Vector) -> Result<Vec<Difference>, Stopped>
    ensures fits { Takes vector.now result }
    ensures value { IfOk result (λ v. AllWays vector.now v.items) }
    ensures none { IfOk result (λ v. NoneExactly vector.now v.items) }
{
    let mut comparer = Comparer {
        vector,
        found: Vec::new(heap),
    };
    comparer.ways_from_key()?;
    comparer.ways_from_table()?;
    Ok(comparer.found)
}
