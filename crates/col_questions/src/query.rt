//! Queries.
use crate::step::Step;
use std::marker::Model;

/// Which documents are asked for, read from JSON by `parse_query`. Contracts see the steps, and by
/// `tree_of` the tree that these stand for.
#[derive(Debug, Drop)]
pub struct Query {
    steps: Vec<Step>,
}

impl Model for Query {
    ghost use Rattle.std.specs.Prelude.{List};
    ghost use Rattle.col_questions.specs.Steps.{AreSteps};
    ghost use Rattle.col_questions.specs.declared.step.Step.{Step};

    ghost Value = { List Step };

    ghost view = { λ q. q.steps.items };

    ghost invariant = { λ q. AreSteps q.steps.items };
}

impl Query {
    ghost use Rattle.std.specs.Prelude.{◌≡◌};
    ghost use Rattle.col_questions.specs.Steps.{AreSteps};

    // The query of steps.
    pub(crate) fn from_steps(steps: Vec<Step>) -> Query
        requires { AreSteps steps.items }
        ensures { result ≡ steps.items }
    {
        Query { steps }
    }

    /// The steps, which leave just one query.
    pub fn steps(&self) -> &[Step]
        ensures value { result.now ≡ self.now }
        ensures sound { AreSteps result.now }
    {
        self.steps.as_slice()
    }
}
