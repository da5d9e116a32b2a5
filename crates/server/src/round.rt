//! One round of a server: each endpoint that is reported, or that was ready, has its turn.

ghost use Rattle.std.specs.Prelude.{◌≡◌, Option, None, List, [], ◌∷◌, true, false};
ghost use Rattle.server.specs.Calls.{HasReported};
ghost use Rattle.server.specs.RoundSteps.{HasGone};
ghost use Rattle.server.specs.Rounds.{EndpointTurn, HasServedRound, IsOver};

use crate::schedule::Schedule;

/// What serves the endpoints of a server, by their tokens.
pub trait Endpoints {
    /// The turns that endpoints have had so far, of a server that reports them; `None` of one that doesn't, or that has
    /// stopped for good.
    ghost turns: { Self → Option (List EndpointTurn) } = { λ _. None };

    /// Gives the endpoint with a token its turn. Returns whether it may have more then.
    fn serve(&mut self, token: usize) -> bool
        ensures { HasReported (turns self.old) (turns self.new) (record { token = token; more = result } ∷ []) };
}

/// Serves each endpoint that a wait has reported and that wasn't known to be ready, as they are reported.
fn serve_reported<E: Endpoints>(endpoints: &mut E, reports: &[usize], schedule: &mut Schedule)
    ensures { HasGone false schedule.old schedule.new reports.now (E.turns endpoints.old) (E.turns endpoints.new) }
{
    for token in reports {
        if schedule.report(*token) {
            let more = endpoints.serve(*token);
            schedule.served(*token, more);
        }
    }
}

/// Serves each endpoint that was ready before and isn't served yet, in the order of their tokens.
fn serve_ready<E: Endpoints>(endpoints: &mut E, schedule: &mut Schedule)
    ensures gone { HasGone true schedule.old schedule.new [] (E.turns endpoints.old) (E.turns endpoints.new) }
    ensures over { IsOver schedule.new }
{
    while let Some(token) = schedule.next_ready() {
        let more = endpoints.serve(token);
        schedule.served(token, more);
    }
}

/// Serves a round, after a wait that has reported some endpoints. Each endpoint that was ready before the round, or
/// that is reported, has exactly one turn: those that are reported and weren't known to be ready first, as they are
/// reported, and then those that were ready, in the order of their tokens. A token that no endpoint has is passed over.
/// After the round an endpoint is ready exactly where its turn says that it may have more, or where it was reported
/// again after its turn.
pub fn serve_round<E: Endpoints>(endpoints: &mut E, reports: &[usize], schedule: &mut Schedule)
    ensures { HasServedRound schedule.old schedule.new reports.now (E.turns endpoints.old) (E.turns endpoints.new) }
{
    schedule.begin();
    serve_reported(endpoints, reports, schedule);
    serve_ready(endpoints, schedule);
}
