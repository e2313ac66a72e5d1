// A view of a table, which holds the payoffs by reference. Each function on one is thin: it takes
// the view apart, and leaves the rest to a function with plain parameters (`view_fields`).
#![tactic(auto)]

ghost use Rattle.std.specs.Prelude.{◌≡◌, [], length, IfOk};
ghost use Rattle.game.specs.Game.{strategy as named};
ghost use Rattle.refusal.specs.Told.{told, told_of, unless, unless_refused};
ghost use Rattle.written_lists.specs.Outputs.{over};
ghost use Rattle.payoff_tables.specs.Checks.{table_refusal};
ghost use Rattle.table.specs.Space.{space_of, space_unless};
ghost use Rattle.equilibria.specs.Answers.{is_equilibrium_answer, equilibria_answer, equilibria_choices, equilibria_utilities};
ghost use Rattle.dominance.specs.Answers.{strategies_of, dominators_of, dominated_answer, dominated_written};
ghost use Rattle.survivors.specs.Survivors.{fresh_of, no_survivors};
ghost use Rattle.strikes.specs.Answers.{strike_answer, strike_leaves};
ghost use Rattle.view.specs.Matrix.{space_in, space_beside, counts_of};
ghost use Rattle.response_list.specs.Responses.{records_answer, records_written};

use refusal::{Listed, NormalFormError};
use response_list::BestResponse;
use survivor_calls::StrikeResult;
use survivors::{FreshResult, Survivors};
use table::{MAX_PLAYERS, StrategySpace};

// A table that holds its payoffs by reference, beside P and the counts. Its fields are whatever its
// holder put there: each call checks them as the plain call does, on the payoffs and the first P of
// the counts.
#[derive(Clone, Copy)]
pub struct PayoffMatrix<'a> {
    pub payoffs: &'a [f64],
    pub players: usize,
    pub counts: [usize; MAX_PLAYERS],
}

impl<'a> PayoffMatrix<'a> {
    // The view of no table, for a caller that wants a view beside a refusal: the payoffs, P 0 and
    // counts 0, so that every call on it gives 1.
    pub fn none(payoffs: &'a [f64]) -> PayoffMatrix<'a>
        ensures payoffs { result.payoffs ≡ payoffs.entry }
        ensures space { space_in result ≡ space_of [] }
    {
        let space = StrategySpace::none();
        let players = space.players;
        let counts = space.counts;
        PayoffMatrix {
            payoffs,
            players,
            counts,
        }
    }

    // The view of a table, or the first of refusals 1 to 7.
    pub fn new(counts: &[usize], payoffs: &'a [f64]) -> Result<PayoffMatrix<'a>, NormalFormError>
        ensures told { told_of (λ m. space_in m) (told result) ≡ unless (table_refusal counts.now payoffs.now) (space_of counts.now) }
        ensures payoffs { IfOk result (λ m. m.payoffs ≡ payoffs.entry) }
        ensures space_value { space_beside result ≡ space_unless (table_refusal counts.now payoffs.now) counts.now }
    {
        let space = table::payoff_matrix(counts, payoffs)?;
        // by a local: stored straight, a field that is an array gets no proof
        let players = space.players;
        let counts = space.counts;
        Ok(PayoffMatrix {
            payoffs,
            players,
            counts,
        })
    }

    // Its best responses, as `response_list::best_responses` lists them.
    pub fn best_responses(
        self,
        player: usize,
        opponents: &[usize],
        out: &mut [BestResponse],
    ) -> Result<usize, NormalFormError>
        ensures { (told result ≡ records_answer (counts_of self.entry) self.entry.payoffs.now player opponents.now (length out.old))
            × (out.new ≡ over (records_written (counts_of self.entry) self.entry.payoffs.now player opponents.now (length out.old)) out.old) }
    {
        let found = view_fields::responses_of(
            self.payoffs,
            self.players,
            self.counts,
            player,
            opponents,
            out.len(),
        );
        response_list::write_list(found, out)
    }

    // Whether the profile is one of its equilibria, as `pure_nash::is_equilibrium` says.
    pub fn is_equilibrium(self, profile: &[usize]) -> Result<bool, NormalFormError>
        ensures { told result ≡ is_equilibrium_answer (counts_of self.entry) self.entry.payoffs.now profile.now }
    {
        view_fields::is_equilibrium_of(self.payoffs, self.players, self.counts, profile)
    }

    // Its equilibria, as `pure_nash::equilibria` lists them.
    pub fn equilibria(
        self,
        choices: &mut [usize],
        utilities: &mut [f64],
    ) -> Result<Listed, NormalFormError>
        ensures { (told result ≡ equilibria_answer (counts_of self.entry) self.entry.payoffs.now (length choices.old) (length utilities.old))
            × (choices.new ≡ over (equilibria_choices (counts_of self.entry) self.entry.payoffs.now (length choices.old) (length utilities.old)) choices.old)
            × (utilities.new ≡ over (equilibria_utilities (counts_of self.entry) self.entry.payoffs.now (length choices.old) (length utilities.old)) utilities.old) }
    {
        view_fields::equilibria_of(self.payoffs, self.players, self.counts, choices, utilities)
    }

    // A player's dominance list, as `strict_dominance::strictly_dominated_strategies` lists it.
    pub fn strictly_dominated_strategies(
        self,
        player: usize,
        dominated: &mut [usize],
        dominators: &mut [usize],
    ) -> Result<usize, NormalFormError>
        ensures { (told result ≡ dominated_answer (counts_of self.entry) self.entry.payoffs.now player (length dominated.old) (length dominators.old))
            × (dominated.new ≡ over (strategies_of (dominated_written (counts_of self.entry) self.entry.payoffs.now player (length dominated.old) (length dominators.old))) dominated.old)
            × (dominators.new ≡ over (dominators_of (dominated_written (counts_of self.entry) self.entry.payoffs.now player (length dominated.old) (length dominators.old))) dominators.old) }
    {
        view_fields::dominated_of(
            self.payoffs,
            self.players,
            self.counts,
            player,
            dominated,
            dominators,
        )
    }

    // Its fresh survivors, as `survivors::fresh` makes them.
    pub fn fresh(self) -> FreshResult
        ensures { (told result.answer ≡ unless (table_refusal (counts_of self.entry) self.entry.payoffs.now) tt)
            × (result.survivors ≡ unless_refused (table_refusal (counts_of self.entry) self.entry.payoffs.now) (fresh_of (counts_of self.entry)) no_survivors) }
    {
        view_fields::fresh_of(self.payoffs, self.players, self.counts)
    }

    // A strike on its survivors, as `survivor_calls::strike` makes it.
    pub fn strike(self, survivors: Survivors, player: usize, strategy: usize) -> StrikeResult
        ensures { (told result.answer ≡ strike_answer (counts_of self.entry) self.entry.payoffs.now survivors (named player strategy))
            × (result.survivors ≡ strike_leaves (counts_of self.entry) self.entry.payoffs.now survivors (named player strategy)) }
    {
        view_fields::strike_of(
            self.payoffs,
            self.players,
            self.counts,
            survivors,
            player,
            strategy,
        )
    }
}
