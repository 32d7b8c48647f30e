//! Positions and reports of document 01: a stripe's report, raised to the batch, and joined with others.
#![tactic(auto)]

ghost use Rattle.std.specs.Prelude.{◌≡◌};
ghost use Rattle.report.specs.Position.{local, batch};
ghost use Rattle.report.specs.Mapped.{mapped, Gives};
ghost use Rattle.report.specs.Join.{raised, joined};
ghost use Rattle.report.specs.Told.{raised_told, joined_told, stripe_values, batch_values, raising, joining};

use refusal::Refusal;
use std::cmp::Ordering;

pub mod noting;
pub mod record;

// A batch is at most this wide, so its positions are below it.
pub const MAX_WIDTH: usize = 4096;

// A position counted from a stripe's start. It is a type of its own beside the next, of the same shape, so that neither is ever
// taken for the other: both hide their number, and only `raise` turns the one into the other. (`column`, `in_stripe`, `in_batch`
// and `map` are the doors that the boundary needs.)
#[derive(Clone, Copy, PartialEq, Eq, Debug)]
pub struct LocalPosition(usize);

// A position counted from the batch's start.
#[derive(Clone, Copy, PartialEq, Eq, Debug)]
pub struct BatchPosition(usize);

impl LocalPosition {
    // The column that many columns after the stripe's first.
    pub fn in_stripe(column: usize) -> LocalPosition
        ensures { result ≡ local column }
    {
        LocalPosition(column)
    }

    pub fn column(self) -> usize
        ensures { result ≡ self.0 }
    {
        self.0
    }
}

impl BatchPosition {
    // The column that many columns after the batch's first.
    pub fn in_batch(column: usize) -> BatchPosition
        ensures { result ≡ batch column }
    {
        BatchPosition(column)
    }

    pub fn column(self) -> usize
        ensures { result ≡ self.0 }
    {
        self.0
    }
}

// What is said of a run's columns. No Option of the failing part: the two cases are known by these names, to the host too.
#[derive(Clone, Copy, PartialEq, Eq, Debug)]
pub enum Report<P> {
    Clean,
    Failing {
        position: P,
        total: usize,
        kept: usize,
    },
}

impl<P> Report<P> {
    // The same report, its position told in other terms.
    pub fn map<Q, F: FnOnce(P) -> Q>(self, to: F) -> Report<Q>
        requires { F.IsAlwaysCallable to }
        ensures { (g : P → Q) → Gives (F.post to) g → result ≡ mapped g self }
    {
        match self {
            Report::Clean => Report::Clean,
            Report::Failing {
                position,
                total,
                kept,
            } => {
                let position = to(position);
                Report::Failing {
                    position,
                    total,
                    kept,
                }
            }
        }
    }
}

// What a run answers of its stripe.
pub type StripeReport = Report<LocalPosition>;

// The same of a batch.
pub type BatchReport = Report<BatchPosition>;

// The side of a join whose records stand.
#[derive(Clone, Copy, PartialEq, Eq, Debug)]
pub enum Side {
    Neither = 0,
    Left = 1,
    Right = 2,
}

// The report that stands of two, and the side that it came from.
#[derive(Clone, Copy, PartialEq, Eq, Debug)]
pub struct Joined {
    pub report: BatchReport,
    pub side: Side,
}

// A stripe's report as one of the batch, the stripe's first column being `start`. A sum past the largest number is past the batch.
pub fn raise(start: usize, report: StripeReport) -> Result<BatchReport, Refusal>
    ensures value { result ≡ raised start report }
    ensures result_value { raised_told result ≡ raising start (stripe_values report) }
{
    match report {
        StripeReport::Clean => Ok(BatchReport::Clean),
        StripeReport::Failing {
            position,
            total,
            kept,
        } => match start.checked_add(position.column()) {
            Some(column) if column < MAX_WIDTH => Ok(BatchReport::Failing {
                position: BatchPosition(column),
                total,
                kept,
            }),
            _ => Err(Refusal::BadPosition),
        },
    }
}

// The lower failing head of the two, and the side that it came from.
pub fn join(left: BatchReport, right: BatchReport) -> Result<Joined, Refusal>
    ensures value { result ≡ joined left right }
    ensures result_value { joined_told result ≡ joining (batch_values left) (batch_values right) }
{
    let (report, side) = match (left, right) {
        (BatchReport::Clean, BatchReport::Clean) => (left, Side::Neither),
        (BatchReport::Failing { .. }, BatchReport::Clean) => (left, Side::Left),
        (BatchReport::Clean, BatchReport::Failing { .. }) => (right, Side::Right),
        (BatchReport::Failing { position: p, .. }, BatchReport::Failing { position: q, .. }) => {
            match p.0.cmp(&q.0) {
                Ordering::Less => (left, Side::Left),
                Ordering::Equal => return Err(Refusal::SamePosition),
                Ordering::Greater => (right, Side::Right),
            }
        }
    };
    Ok(Joined { report, side })
}
