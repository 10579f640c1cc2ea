// The least refusal of the causes tested so far. The rules of a part hand a verdict on, each with the causes that it tests.
ghost use Rattle.std.specs.Prelude.{◌≡◌, false};
ghost use Rattle.refusals.specs.Answer.{answer_of, number_of};
ghost use Rattle.refusals.specs.Refusal.{refusal_number};
ghost use Rattle.tables.specs.Marks.{always};
ghost use Rattle.tables.specs.Pools.{pools_of};
ghost use Rattle.verdicts.specs.Refuse.{sooner, with_cause, least_of, id_causes};
ghost use Rattle.verdicts.specs.Verdict.{least};

use faults::{Test, fails};
use ids::{IdColumn, Lent};
use refusals::Refusal;
use tables::Mark;

/// The least refusal so far, if there is one.
#[derive(Clone, Copy, Debug)]
pub struct Verdict {
    pub first: Option<Refusal>,
}

impl Verdict {
    /// Nothing is tested yet.
    pub fn new() -> Self
        ensures { least result ≡ 0 }
    {
        Verdict { first: None }
    }

    // With one refusal more.
    fn sooner(self, refusal: Refusal) -> Self
        ensures { least result ≡ sooner (least self) (refusal_number refusal) }
    {
        match self.first {
            Some(best) if best <= refusal => self,
            _ => Verdict {
                first: Some(refusal),
            },
        }
    }

    /// With one cause more.
    pub fn test(self, lent: &Lent, refusal: Refusal, test: Test) -> Self
        ensures { least result ≡ with_cause (pools_of lent.now) (least self) (refusal_number refusal, test) }
    {
        if fails(lent, test) {
            return self.sooner(refusal);
        }
        self
    }

    /// With the causes of a column of n ids, of which those that count have at most so many bytes.
    pub fn test_ids(
        self,
        lent: &Lent,
        ids: IdColumn,
        mark: Mark,
        empty: bool,
        n: u32,
        most: u32,
    ) -> Self
        ensures { least result ≡ least_of (pools_of lent.now) (least self) (id_causes ids mark empty n most) }
    {
        self.test(lent, Refusal::Columns, Test::Ids(ids, n))
            .test(
                lent,
                Refusal::Count,
                Test::Reaches(ids.lens, mark, most as u64 + 1),
            )
            .test(lent, Refusal::Index, Test::IdsPast(ids, mark))
            .test(lent, Refusal::Text, Test::BadIds(ids, mark, empty))
    }

    /// The same of a column where each row has an id, and none is empty.
    pub fn test_all_ids(self, lent: &Lent, ids: IdColumn, n: u32, most: u32) -> Self
        ensures { least result ≡ least_of (pools_of lent.now) (least self) (id_causes ids always false n most) }
    {
        self.test_ids(lent, ids, Mark::ALL, false, n, most)
    }

    /// The verdict, for `?`.
    pub fn finish(self) -> Result<(), Refusal>
        ensures { number_of (answer_of result) ≡ least self }
    {
        match self.first {
            None => Ok(()),
            Some(refusal) => Err(refusal),
        }
    }
}
