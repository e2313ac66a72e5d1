// The step from a profile to the next.
#![tactic(auto)]

ghost use Rattle.std.specs.Prelude.{◌≡◌};
ghost use Rattle.profile_step.specs.Step.{step};

use table::MAX_PLAYERS;

// Whether there was a next profile, and the choices after the step. No Option: `step`, which the
// contract names, says the choices where there is no next profile too.
#[derive(Clone, Copy)]
pub struct Advanced {
    pub more: bool,
    pub profile: [usize; MAX_PLAYERS],
}

// The next profile in lexicographic order, for the players of `counts`. Any counts and choices may
// come: a choice that cannot go up, because it is the last one, at its count or past it, goes to 0
// and the player before it goes up. Places past the players keep their contents, and players past
// the last place are not read.
pub fn advance_profile(counts: &[usize], profile: [usize; MAX_PLAYERS]) -> Advanced
    ensures { result ≡ step counts.now profile }
{
    let mut next = profile;
    for p in (0..counts.len().min(MAX_PLAYERS)).rev() {
        let count = counts[p];
        let choice = next[p];
        if choice < count && choice + 1 < count {
            next[p] = choice + 1;
            return Advanced {
                more: true,
                profile: next,
            };
        }
        next[p] = 0;
    }
    Advanced {
        more: false,
        profile: next,
    }
}
