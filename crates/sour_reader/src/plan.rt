//! Jobs of the plan.

ghost use Rattle.std.specs.Prelude.{◌≡◌};
ghost use Rattle.sour_raw.specs.Combinators.{unseparated};
ghost use Rattle.sour_raw.specs.Keys.{keyword};
ghost use Rattle.sour_raw.specs.Lexemes.{is};
ghost use Rattle.sour_raw.specs.Plan.{plan_job_at, plan_jobs_at};
ghost use Rattle.sour_raw.specs.Spelling.{alone};
ghost use Rattle.sour_reader.specs.Given.{Gives};

use crate::items::{Item, repeated, too_many};
use crate::literals::name;
use crate::passes::{passes, start};
use crate::stop::Stop;
use crate::tokens::{Rest, after_line_end, after_symbol, after_word, has_word, next_line};
use crate::variables::Variables;
use sour_lexer::Symbol;
use sour_raw::RawPlanJob;
use sour_syntax::List;
use std::alloc::Global;

/// The most jobs of a plan.
const MAX_PLAN_JOBS: usize = 1024;

/// A job of the plan.
#[tactic(auto, unfolding(sour_raw::specs::Plan::plan_job_at))]
fn plan_job<'a>(alloc: Global, tokens: Rest<'a>) -> Result<(RawPlanJob, Rest<'a>), Stop<'a>>
    ensures { Gives result plan_job_at tokens.now }
{
    let line = next_line(tokens);
    let rest = after_word(tokens, b"job")?;
    let (function, rest) = name(alloc, rest)?;
    let rest = after_word(rest, b"from")?;
    let (start, rest) = start(rest)?;
    let rest = after_symbol(rest, Symbol::Colon)?;
    let (passes, rest) = passes(alloc, rest)?;
    let rest = after_line_end(rest)?;
    Ok((
        RawPlanJob {
            line,
            function,
            start,
            passes,
        },
        rest,
    ))
}

/// Jobs one after the other.
struct EachPlanJob;

impl Item for EachPlanJob {
    type Out = RawPlanJob;

    ghost items = { λ _. unseparated (is (keyword "job")) (λ names. plan_job_at) alone };

    fn comes(&self, tokens: Rest<'_>) -> bool {
        has_word(tokens, b"job")
    }

    fn read<'a>(
        &self,
        alloc: Global,
        _variables: &mut Variables,
        tokens: Rest<'a>,
    ) -> Result<(RawPlanJob, Rest<'a>), Stop<'a>> {
        plan_job(alloc, tokens)
    }

    fn refuse<'a>(&self, alloc: Global, _variables: &mut Variables, tokens: Rest<'a>) -> Stop<'a> {
        let read = plan_job(alloc, tokens);
        too_many(tokens, read)
    }
}

/// The jobs of the plan.
#[tactic(auto, unfolding(sour_raw::specs::Plan::plan_jobs_at))]
pub(crate) fn plan_jobs<'a>(
    alloc: Global,
    tokens: Rest<'a>,
) -> Result<(List<RawPlanJob>, Rest<'a>), Stop<'a>>
    ensures { Gives result plan_jobs_at tokens.now }
{
    let mut no_names = Variables::new(alloc);
    repeated(
        alloc,
        &EachPlanJob,
        Some(MAX_PLAN_JOBS),
        &mut no_names,
        tokens,
    )
}
