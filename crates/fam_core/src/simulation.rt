//! A script played to its end.

ghost use Rattle.std.specs.Prelude.{◌≡◌, ℕ, false, true, length, IfOk, OnErr};
ghost use Rattle.std.specs.List.{flat_map};
ghost use Rattle.fam_keeper.specs.Keeping.{Keeps};
ghost use Rattle.fam_model.specs.Grammar.{IsLawfulScript};
ghost use Rattle.fam_model.specs.Headline.{opening};
ghost use Rattle.fam_model.specs.ReportText.{reply_lines};
ghost use Rattle.fam_model.specs.Rows.{IsLawful};
ghost use Rattle.fam_schedule.specs.Schedule as schedule;
ghost use Rattle.fam_model.specs.declared.rows.Rows.{Rows};
ghost use Rattle.fam_model.specs.declared.script.Script.{Script};
ghost use Rattle.fam_steps.specs.Crash.{IsFresh, IsKeptHistory, IsKeptRun, KeepsOn};
ghost use Rattle.fam_core.specs.Playing.{Advances, IsBegun, IsOpened, IsPlayed, IsPlayedOut, IsRunning, IsStanding, StandsAfter};

use crate::actors::{Actor, list_actors};
use crate::chosen::choose;
use crate::playing::Player;
use crate::turn::Turn;
use fam_base::{NoMemory, Sequence};
use fam_disk::Disk;
use fam_keeper::Keeper;
use fam_model::{Event, ReplyLine, Rows, Script};
use fam_schedule::words_of;
use fam_steps::Core;
use rand_pcg::Pcg32;
use std::alloc::Global;

/// One step: what comes next is made. False where nobody may act.
fn advance<D: Disk>(
    player: &mut Player,
    keeper: &mut Keeper<D>,
    actors: &mut Vec<Actor>,
    words: &mut Pcg32,
) -> Result<bool, NoMemory>
    requires standing { IsStanding player.old }
    requires kept { Keeps keeper.old player.old.service.state.rows }
    ensures advances { Advances player.old words.old player.new words.new result }
    ensures kept { Keeps keeper.new player.new.service.state.rows }
    ensures keeps { KeepsOn player.old.service keeper.old player.new.service keeper.new }
{
    list_actors(player, actors)?;
    let Some(chosen) = choose(player, actors, words) else {
        return Ok(false);
    };
    player.make(keeper, &chosen)
}

/// Plays on until nobody may act. False where memory was wanting before.
fn play<D: Disk>(
    alloc: Global,
    player: &mut Player,
    keeper: &mut Keeper<D>,
    words: &mut Pcg32,
) -> bool
    requires running { IsRunning player.old words.old }
    requires kept { Keeps keeper.old player.old.service.state.rows }
    ensures played { (rows : Rows) (script : Script) (seed : ℕ) → StandsAfter rows script seed player.old.service.history player.old words.old →
        IsPlayed rows script seed player.new result }
    ensures kept { Keeps keeper.new player.new.service.state.rows }
    ensures keeps { KeepsOn player.old.service keeper.old player.new.service keeper.new }
{
    let mut actors = Vec::new(alloc);
    for _ in 0..u64::MAX {
        match advance(player, keeper, &mut actors, words) {
            Ok(true) => {}
            Ok(false) => return true,
            Err(_) => return false,
        }
    }
    false
}

/// The lines of all programs, one after the other.
fn all_lines(alloc: Global, turns: Sequence<Turn>) -> Result<Vec<ReplyLine>, NoMemory>
    ensures { IfOk result (λ lines. lines.items ≡ flat_map (λ turn. turn.lines.items) turns) }
{
    match turns
        .into_vec()
        .into_iter()
        .flat_map(|turn| turn.lines)
        .collect(alloc)
    {
        Ok(lines) => Ok(lines),
        Err(_) => Err(NoMemory),
    }
}

/// A script that was played: the service as it stands behind it, and the reply lines of its report. Where memory was wanting
/// it is not whole: the history is then the run so far, and there are no reply lines.
#[derive(Drop)]
pub struct Played {
    pub service: Core,
    pub replies: Vec<ReplyLine>,
    pub whole: bool,
}

/// Plays a script that was opened to its end.
fn play_out<D: Disk>(alloc: Global, mut player: Player, keeper: &mut Keeper<D>, seed: u64) -> Played
    requires begun { IsBegun player }
    requires kept { Keeps keeper.old player.service.state.rows }
    ensures played { (rows : Rows) (script : Script) → IsOpened rows script player → IsPlayedOut rows script seed result }
    ensures keeps { KeepsOn player.service keeper.old result.service keeper.new }
    ensures goes_on { result.whole ≡ true → keeper.new.stopped ≡ false }
{
    let mut words = words_of(seed);
    let whole = play(alloc, &mut player, keeper, &mut words);
    let Player { service, turns, .. } = player;
    if !whole || keeper.is_stopped() {
        return so_far(alloc, service);
    }
    match all_lines(alloc, turns) {
        Ok(replies) => Played {
            service,
            replies,
            whole: true,
        },
        Err(_) => so_far(alloc, service),
    }
}

/// What was played so far, where memory was wanting.
fn so_far(alloc: Global, service: Core) -> Played
    ensures service { result.service ≡ service }
    ensures whole { result.whole ≡ false }
{
    Played {
        service,
        replies: Vec::new(alloc),
        whole: false,
    }
}

/// Plays a lawful script on one thread, with these rows in its directory, in the order that the seed draws. Each change is
/// kept before it is served. The service is handed out as it stands at the end.
///
/// The history is the one that the schedule gives for the seed, but for refusals by the disk, up to its end where the run is
/// whole, and else a front of it. Where it is whole the reply lines are those of its report, and the machine is the one
/// behind the history.
pub fn play_script<D: Disk>(
    alloc: Global,
    rows: Rows,
    script: &Script,
    seed: u64,
    keeper: &mut Keeper<D>,
) -> Result<Played, NoMemory>
    requires script { IsLawfulScript script.now }
    requires rows { IsLawful rows }
    requires fresh { IsFresh keeper.old rows }
    ensures played { IfOk result (IsPlayedOut rows script.now seed) }
    ensures kept { IfOk result (λ played. IsKeptRun (opening rows script.now) keeper.old played.service keeper.new) }
    ensures untouched { OnErr result (keeper.new ≡ keeper.old) }
    ensures goes_on { IfOk result (λ played. played.whole ≡ true → keeper.new.stopped ≡ false) }
{
    keeper.leaves_what_was_kept();
    let player = Player::new(alloc, rows, script)?;
    Ok(play_out(alloc, player, keeper, seed))
}

/// A run of a script: its history, and the reply lines of its report. Where memory was wanting it is not whole: its
/// history is then the run so far, and there are no reply lines.
#[derive(Drop)]
pub struct Simulated {
    pub history: Vec<Event>,
    pub replies: Vec<ReplyLine>,
    pub whole: bool,
}

/// Plays a lawful script as `play_script` does, closes what is in doubt, and hands out the history.
///
/// The history is the one that the schedule gives for the seed, but for refusals by the disk, up to its end where the run is
/// whole, and else a front of it. The reply lines of a whole run are those of its report. At each moment a crash leaves the
/// rows behind a front of the history, or these with the change that the next event left in doubt.
pub fn simulate<D: Disk>(
    alloc: Global,
    rows: Rows,
    script: &Script,
    seed: u64,
    keeper: &mut Keeper<D>,
) -> Simulated
    requires script { IsLawfulScript script.now }
    requires rows { IsLawful rows }
    requires fresh { IsFresh keeper.old rows }
    ensures scheduled { schedule.IsScheduled rows script.now seed result.history.items result.whole }
    ensures replies { result.whole ≡ true → result.replies.items ≡ reply_lines (length script.now.programs) result.history.items }
    ensures kept { IsKeptHistory (opening rows script.now) keeper.old result.history.items keeper.new }
    ensures goes_on { result.whole ≡ true → keeper.new.stopped ≡ false }
{
    keeper.leaves_what_was_kept();
    let played = play_script(alloc, rows, script, seed, keeper);
    keeper.settle();
    keeper.leaves_what_was_kept();
    match played {
        Ok(
            Played {
                service,
                replies,
                whole,
            },
        ) => Simulated {
            history: service.into_history(),
            replies,
            whole,
        },
        Err(_) => Simulated {
            history: Vec::new(alloc),
            replies: Vec::new(alloc),
            whole: false,
        },
    }
}
