//! A player's table while its workers lift it, and what is left when they have done.
ghost use Rattle.std.specs.Prelude.{◌≡◌, IfOk};
ghost use Rattle.pb_lifting.specs.Scales.{IsScaleOf};
ghost use Rattle.pb_lifting.specs.Seats.{AreLiftSeats, game_at, origin_at, origin_of, player_at};
ghost use Rattle.pb_lifting.specs.Turns.{IsJobAt, IsOpenFor, IsLeastMeasured};

use crate::concede::concede_part;
use crate::measured::Measured;
use crate::ranking::Ranking;
use crate::ranks::{LiftSeat, Ranks};
use crate::scale::Scale;
use crate::sweep::sweep;
use crate::turn::Turn;
use crate::work::{LiftSite, Lifter, Lifting, TableBrand, work};
use pb_exploration_words::Gate;
use pb_game::{Game, Player};
use std::alloc::{AllocError, Global};
use std::marker::PhantomData;
use std::thread;
use std::thread::Threads;

/// A player's table, with the seats of its workers.
#[derive(Drop)]
pub(crate) struct OpenTable {
    pub ranks: Ranks,
    pub seats: Vec<LiftSeat>,
}

impl OpenTable {
    /// A player's table whose words are 0.
    pub(crate) fn start<G: Gate>(
        alloc: Global,
        lifting: &Lifting<'_, G>,
        player: Player,
        scale: &Scale,
    ) -> Result<OpenTable, AllocError>
        requires { IsScaleOf lifting.now.game.now player scale.now }
        ensures { IfOk result (IsOpenFor lifting.now.game.now player) }
    {
        let (ranks, seats) = Ranks::lay(alloc, lifting.game, player, scale, lifting.workers)?;
        Ok(OpenTable { ranks, seats })
    }

    /// The least measure of the table's player: one thread lifts the closed words until no lift
    /// raises one.
    pub(crate) fn finish(
        self,
        alloc: Global,
        game: &Game,
        player: Player,
    ) -> Result<Measured, AllocError>
        requires { IsOpenFor game.now player self }
        ensures { IfOk result (IsLeastMeasured game.now player) }
    {
        let OpenTable { ranks, seats } = self;
        let scale = ranks.scale;
        let mut words = ranks.close(alloc, seats)?;
        let ranking = Ranking {
            game,
            player,
            scale: &scale,
        };
        sweep(&ranking, &mut words);
        Ok(Measured { scale, words })
    }
}

/// What each worker does at a table.
#[derive(Drop)]
pub(crate) enum Job<'a> {
    /// It takes its turn.
    Lift(&'a Turn),
    /// It concedes the vertices that the opponent wins by this measure.
    Concede(&'a Measured),
}

/// A worker does its job.
fn do_job<B: TableBrand, G: Gate>(site: &LiftSite<'_, B, G>, job: &Job<'_>, lifter: &mut Lifter<B>)
    requires { IsJobAt site.now.lifting.now.game.now (player_at site.now.ranks.now) job.now }
{
    match job {
        Job::Lift(turn) => work(site, turn, lifter),
        Job::Concede(opponents) => concede_part(site, opponents, lifter),
    }
}

/// Each worker does its job, in a thread of its own where one can be made.
pub(crate) fn work_together<B: TableBrand + Send + Sync, G: Gate + Sync, R: Threads + Sync>(
    rt: &R,
    lifting: &Lifting<'_, G>,
    ranks: &Ranks,
    job: &Job<'_>,
    seats: Vec<LiftSeat>,
) -> Result<Vec<LiftSeat>, AllocError>
    requires game { lifting.now.game.now ≡ game_at ranks.now }
    requires table { origin_at ranks.now ≡ B.origin }
    requires job { IsJobAt lifting.now.game.now (player_at ranks.now) job.now }
    requires seats { AreLiftSeats ranks.now seats.items }
    ensures { IfOk result (λ v. AreLiftSeats ranks.now v.items) }
{
    let site = &LiftSite {
        lifting,
        ranks,
        marker: PhantomData::<B>,
    };
    let done = thread::map_vec(
        rt,
        seats,
        &|seat: LiftSeat| -> LiftSeat
            requires { (origin_of seat ≡ B.origin) × IsJobAt site.now.lifting.now.game.now
                (player_at site.now.ranks.now) job.now }
            ensures { origin_of result ≡ B.origin }
        {
            let mut lifter = Lifter {
                seat,
                marker: PhantomData::<B>,
            };
            do_job(site, job, &mut lifter);
            let Lifter { seat, .. } = lifter;
            seat
        },
    )?;
    Ok(done)
}
