//! Counters of work. They take no room when the program runs: only contracts see them.
ghost use Rattle.std.specs.Prelude.{◌≡◌, ◌+◌, ℕ};

use std::marker::{Brand, Model, PhantomData};
use std::sync::ledger::{Blank, Book, Ledger, Share};

/// A count that only `tick` and `add` raise. Contracts see it as a number.
#[derive(Drop)]
pub struct Steps<P: Ledger> {
    book: Book<P>,
    share: Share<P>,
}

impl<P: Ledger> Model for Steps<P> {
    ghost use Rattle.std.specs.Prelude.{ℕ, ◌<◌};

    ghost Value = { ℕ };

    ghost view = { λ s. s.book.total };

    ghost invariant = { λ s. 0 < s.share.parts };
}

impl<P: Ledger> Steps<P> {
    fn start(blank: Blank) -> Steps<P>
        requires name { blank.name ≡ P.name }
        requires parts { blank.parts ≡ P.parts }
        requires some { P.parts ≡ 1 }
        ensures { result ≡ 0 }
    {
        let (book, share) = blank.open::<P>();
        Steps { book, share }
    }

    /// Counts one step.
    pub fn tick(&mut self)
        ensures { self.new ≡ self.old + 1 }
    {
        self.book.add(&mut self.share, 1);
    }

    /// Counts this many steps.
    pub fn add(&mut self, steps: u64)
        ensures { self.new ≡ self.old + steps }
    {
        self.book.add(&mut self.share, steps);
    }
}

/// The names of the four counters' ledgers. It has no functions: a caller picks the names in its proof.
pub trait Ledgers {
    ghost evaluated_name: { ℕ };

    ghost styled_name: { ℕ };

    ghost laid_name: { ℕ };

    ghost painted_name: { ℕ };
}

impl Ledgers for Brand {
    ghost evaluated_name = { 0 };

    ghost styled_name = { 0 };

    ghost laid_name = { 0 };

    ghost painted_name = { 0 };
}

/// The ledger of evaluations.
pub struct Evaluated<L: Ledgers>(PhantomData<L>);

impl<L: Ledgers> Ledger for Evaluated<L> {
    ghost name = { L.evaluated_name };

    ghost parts = { 1 };
}

/// The ledger of styled nodes.
pub struct Styled<L: Ledgers>(PhantomData<L>);

impl<L: Ledgers> Ledger for Styled<L> {
    ghost name = { L.styled_name };

    ghost parts = { 1 };
}

/// The ledger of measured and placed nodes.
pub struct Laid<L: Ledgers>(PhantomData<L>);

impl<L: Ledgers> Ledger for Laid<L> {
    ghost name = { L.laid_name };

    ghost parts = { 1 };
}

/// The ledger of painted pixels.
pub struct Painted<L: Ledgers>(PhantomData<L>);

impl<L: Ledgers> Ledger for Painted<L> {
    ghost name = { L.painted_name };

    ghost parts = { 1 };
}

/// How much was worked: evaluations of bound properties, nodes styled, nodes measured or placed, pixels painted.
#[derive(Drop)]
pub struct Work<L: Ledgers> {
    pub evaluated: Steps<Evaluated<L>>,
    pub styled: Steps<Styled<L>>,
    pub laid: Steps<Laid<L>>,
    pub painted: Steps<Painted<L>>,
}

impl<L: Ledgers> Work<L> {
    /// Four counters at 0, from four ledgers that nothing counts in yet.
    pub fn new(evaluated: Blank, styled: Blank, laid: Blank, painted: Blank) -> Work<L>
        requires evaluated { (evaluated.name ≡ L.evaluated_name) × (evaluated.parts ≡ 1) }
        requires styled { (styled.name ≡ L.styled_name) × (styled.parts ≡ 1) }
        requires laid { (laid.name ≡ L.laid_name) × (laid.parts ≡ 1) }
        requires painted { (painted.name ≡ L.painted_name) × (painted.parts ≡ 1) }
        ensures { (result.evaluated ≡ 0) × (result.styled ≡ 0) × (result.laid ≡ 0) × (result.painted ≡ 0) }
    {
        Work {
            evaluated: Steps::start(evaluated),
            styled: Steps::start(styled),
            laid: Steps::start(laid),
            painted: Steps::start(painted),
        }
    }
}
