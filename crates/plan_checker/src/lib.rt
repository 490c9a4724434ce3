// The checker of a plan: a call for each line, into two lent tables, and a call for the test after the last. Each call takes a record and tests it
// again. What is refused leaves checker and tables as they were.
#![tactic(auto)]

ghost use Rattle.std.specs.Prelude.{◌≡◌, List, ℕ, ◌<◌, set, Some};
ghost use Rattle.std.proofs.Math.Option.{none};
ghost use Rattle.railway.specs.declared.Railway.{Railway};
ghost use Rattle.railway.specs.Record.{is_closed};
ghost use Rattle.railway_routes.specs.Routes.{Laid};
ghost use Rattle.railway_compiled.specs.Table.{Compiled};
ghost use Rattle.game_moves.specs.Steps.{no_code};
ghost use Rattle.game_tables.specs.Tables.{case_refusal};
ghost use Rattle.plan.specs.declared.CheckerState.TheVariants.{Fresh};
ghost use Rattle.plan.specs.Checker.{take_line};
ghost use Rattle.plan.specs.Several.{lines_of, front_of, FrontPost};
ghost use Rattle.plan.specs.FrontAnswer.{Took};
ghost use Rattle.plan.specs.Steps.{tests};
ghost use Rattle.plan.specs.Promises.{LinePost, TestPost, FreshPost};
ghost use Rattle.plan_checker.specs.declared.Checker.{Checker};
ghost use Rattle.plan_checker.specs.Answers.{checking, took};
ghost use Rattle.plan_checker.specs.Steps.{takes_start, takes_placement, takes_read, CodeSmall, SomeTable, front_taken};

use plan::CheckerState;
use plan_reader::PlanLine;
use railway::{Railway, Refusal};
use railway_compiled::Table;
use railway_routes::Ways;

// What the checker keeps between calls, beside the tables.
#[derive(Clone, Copy)]
pub struct Checker {
    pub state: CheckerState,
}

impl Checker {
    // A checker at its beginning, and two tables made fresh, whatever stood in them: every code of the case is written, and no entry past the last. Where the
    // case is refused the checker is at its beginning too, so that it stands beside the answer and not in it.
    pub fn fresh(
        r: Railway,
        figures: &mut [u32],
        settings: &mut [u32],
    ) -> (Checker, Result<(), Refusal>)
        ensures { FreshPost r figures.old settings.old result.1 (checking result.0 figures.new settings.new) }
    {
        let checker = Checker {
            state: CheckerState::Fresh,
        };
        (checker, freshen(r, figures, settings))
    }

    // A LINE. The rows of the case come before its form.
    pub fn take(
        &mut self,
        r: Railway,
        text: &[u8],
        figures: &mut [u32],
        settings: &mut [u32],
    ) -> Result<(), Refusal>
        ensures { LinePost r (checking self.old figures.old settings.old) text.now result (checking self.new figures.new settings.new) }
    {
        let case = game_case::open_case(r, figures, settings)?;
        self.take_line(&case, text, figures, settings)
    }

    // A line in a case that is not refused.
    fn take_line(
        &mut self,
        table: &Table,
        text: &[u8],
        figures: &mut [u32],
        settings: &mut [u32],
    ) -> Result<(), Refusal>
        requires { SomeTable table.now }
        ensures { (r : Railway) → Compiled r table.now → case_refusal r figures.old settings.old ≡ none
            → took result self.new figures.new settings.new ≡ take_line r (checking self.old figures.old settings.old) text.now }
    {
        match plan_reader::read_line(table, text) {
            Some(line) => self.enter(line, figures, settings),
            None => Err(Refusal::PlanForm),
        }
    }

    // THE LINES IN FRONT of a text, up to the first that is refused: so many calls for a line each. The rows of the case refuse the call; no line does.
    pub fn take_front(
        &mut self,
        r: Railway,
        text: &[u8],
        figures: &mut [u32],
        settings: &mut [u32],
    ) -> Result<usize, Refusal>
        ensures { FrontPost r (checking self.old figures.old settings.old) text.now result (checking self.new figures.new settings.new) }
    {
        let table = game_case::open_case(r, figures, settings)?;
        Ok(self.take_lines(&table, text, figures, settings))
    }

    // They, in a case that is not refused.
    fn take_lines(
        &mut self,
        table: &Table,
        text: &[u8],
        figures: &mut [u32],
        settings: &mut [u32],
    ) -> usize
        requires { SomeTable table.now }
        ensures { (r : Railway) → Compiled r table.now → case_refusal r figures.old settings.old ≡ none
            → took (Took result) self.new figures.new settings.new ≡ front_taken (front_of r (lines_of text.now) (checking self.old figures.old settings.old)) }
    {
        let mut at: usize = 0;
        while at < text.len() {
            let Some((line, end)) = plan_reader::read_at(table, text, at) else {
                return at;
            };
            if let Err(_) = self.enter(line, figures, settings) {
                return at;
            }
            at = end;
        }
        at
    }

    // What a line says is entered, if it may come now.
    fn enter(
        &mut self,
        line: PlanLine,
        figures: &mut [u32],
        settings: &mut [u32],
    ) -> Result<(), Refusal>
        requires { CodeSmall (Some line) }
        ensures { took result self.new figures.new settings.new ≡ takes_read (checking self.old figures.old settings.old) self.old.state (Some line) }
    {
        match line {
            PlanLine::Start(n) => self.begin(n),
            PlanLine::Placed(code, n, v) => self.list(code, n, v, figures, settings),
        }
    }

    // The first line comes once: no code is too low for what follows.
    fn begin(&mut self, n: u32) -> Result<(), Refusal>
        ensures { (figs sets : List ℕ) → took result self.new figs sets ≡ takes_start (checking self.old figs sets) self.old.state n }
    {
        match self.state {
            CheckerState::Fresh => {
                self.state = CheckerState::Begun(n, 0);
                Ok(())
            }
            CheckerState::Begun(_, _) => Err(Refusal::PlanForm),
        }
    }

    // A placement comes after the first line, its code above all before it.
    fn list(
        &mut self,
        code: u32,
        n: u32,
        v: u32,
        figures: &mut [u32],
        settings: &mut [u32],
    ) -> Result<(), Refusal>
        requires { code < no_code }
        ensures { took result self.new figures.new settings.new ≡ takes_placement (checking self.old figures.old settings.old) self.old.state code n v }
    {
        match self.state {
            CheckerState::Fresh => Err(Refusal::PlanForm),
            CheckerState::Begun(m, from) => {
                if code < from {
                    return Err(Refusal::PlanForm);
                }
                put(figures, code, n);
                put(settings, code, v);
                self.state = CheckerState::Begun(m, code + 1);
                Ok(())
            }
        }
    }

    // THE TEST, after the last line: the rows of the case, then the lines taken.
    pub fn test(&self, r: Railway, figures: &[u32], settings: &[u32]) -> Result<(), Refusal>
        ensures { TestPost r (checking self.now figures.now settings.now) result (checking self.now figures.now settings.now) }
    {
        let tested = game_case::open_case(r, figures, settings)?;
        let ways = game_case::case_ways(r);
        verdict(self.state, &tested, &ways, figures, settings)
    }
}

// Two tables made fresh, for a checker that has taken no line.
fn freshen(r: Railway, figures: &mut [u32], settings: &mut [u32]) -> Result<(), Refusal>
    ensures { (c : Checker) → c.state ≡ Fresh → FreshPost r figures.old settings.old result (checking c figures.new settings.new) }
{
    let table = game_case::open_case(r, figures, settings)?;
    let n = game_moves::placements(&table) as usize;
    figures[..n].fill(game_tables::NO_FIGURE);
    settings[..n].fill(0);
    Ok(())
}

// The test of the lines taken: before the first line there is no plan.
fn verdict(
    state: CheckerState,
    table: &Table,
    ways: &Ways,
    figures: &[u32],
    settings: &[u32],
) -> Result<(), Refusal>
    ensures { (r : Railway) (c : Checker) → Compiled r table.now
        → Laid r (is_closed r) ways.now
        → result ≡ tests r (checking c figures.now settings.now) none state }
{
    match state {
        CheckerState::Fresh => Err(Refusal::PlanForm),
        CheckerState::Begun(m, _) => {
            if plan_judge::test_holds(table, ways, figures, settings, m) {
                return Ok(());
            }
            Err(Refusal::PlanFault)
        }
    }
}

// An entry of a table; a code past its end is not entered.
pub fn put(table: &mut [u32], code: u32, v: u32)
    ensures { table.new ≡ set table.old code v }
{
    let at = code as usize;
    if at < table.len() {
        table[at] = v;
    }
}
