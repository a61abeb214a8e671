//! The client of the entry line while its connection is open: the stage that it stands at, and what a heard byte brings.
//!
//! How it is built. `take` feeds a byte to the stage, and says by one call what is then due. The answer is the stage at which the client
//! goes on, or how the call ends. The outcomes of the pages that are decided stand in a list, in the order of the pages.

ghost use Rattle.std.specs.Prelude.{◌≡◌, ◌≢◌, ℕ, ◌+◌, ◌≤◌, List, [], ◌∷◌, ◌++◌, length, drop};
ghost use Rattle.arrayvec.specs.ArrayVec.{array_vec_len};
ghost use Rattle.calling.specs.Progress.{At, Between, CallsAt, LeavesAt, Moves, SendsAt, SpokeThen, logon_at};
ghost use Rattle.entry_line.specs.Chars.{char_of};
ghost use Rattle.tap_entry.specs.Client.{block_at, logon_line};
ghost use Rattle.tap_entry.specs.MarkReaders.{ReaderStandsFor};
ghost use Rattle.tap_entry.specs.declared.hearing.Mark.{Mark};
ghost use Rattle.wires.specs.Below.{Speaks};

use arrayvec::ArrayVec;
use entry_line::characters::CR;
use tap_block::control::EOT;
use tap_entry::file::MOST_PAGES;
use tap_entry::logon::LONGEST_LOGON;
use tap_entry::{
    CallStep, Calling, LeaveStep, Leaving, LoggedOn, Outcome, Pages, SendStep, Sending,
};
use wires::Failed;
use wires::sink::Sink;
use wires::wire::{Saying, Wire};

/// EOT CR, which the client says before it leaves.
const GOOD_BYE: [u8; 2] = [EOT, CR];

/// The outcomes of the pages that are decided, in the order of the pages.
pub(crate) type Outcomes = ArrayVec<Outcome, MOST_PAGES>;

/// Whether the client was logged on.
#[derive(Clone, Copy, Debug, PartialEq, Eq)]
pub enum Logon {
    /// No Go was heard.
    Pending,
    /// Go was heard.
    Granted,
}

/// How a call ends.
#[derive(Clone, Copy, Debug, PartialEq, Eq)]
pub enum Ending {
    /// Nothing more is to be heard: nothing comes, or the client is through.
    Over(Logon),
    /// The line failed.
    Lost(Logon),
}

/// Where the client stands.
#[derive(Drop)]
pub enum Stage {
    /// Its logon isn't decided.
    Calling(Calling),
    /// It sends a page.
    Sending(Sending),
    /// It has said good-bye.
    Leaving(Leaving),
}

/// What a byte brings.
#[derive(Drop)]
pub enum Step {
    /// The client goes on.
    On(Stage),
    /// The call ends.
    Ends(Ending),
}

/// Takes a byte that was heard, and says what is then due.
pub(crate) fn take<W: Wire>(
    stage: Stage,
    byte: u8,
    pages: &Pages,
    done: &mut Outcomes,
    wire: &mut W,
) -> Step
    ensures { (x : List ℕ) (marks : List Mark) (said : List ℕ) → At pages.now stage done.old.items x marks said
        → Moves pages.now (x ++ char_of byte ∷ []) said (W.state wire.old) (W.state wire.new) done.new.items result }
{
    match stage {
        Stage::Calling(client) => take_calling(client, byte, pages, done, wire),
        Stage::Sending(client) => take_sending(client, byte, pages, done, wire),
        Stage::Leaving(client) => take_leaving(client, byte, pages, done, wire),
    }
}

/// A byte while the logon isn't decided.
fn take_calling<W: Wire>(
    client: Calling,
    byte: u8,
    pages: &Pages,
    done: &Outcomes,
    wire: &mut W,
) -> Step
    ensures { (x : List ℕ) (marks : List Mark) (said : List ℕ) → CallsAt pages.now client done.now.items x marks said
        → Moves pages.now (x ++ char_of byte ∷ []) said (W.state wire.old) (W.state wire.new) done.now.items result }
{
    match client.feed(byte) {
        CallStep::Wait(next) => Step::On(Stage::Calling(next)),
        CallStep::SayLogon(next) => say_logon(next, wire),
        CallStep::Go(next) => begin(next, pages, done, wire),
        CallStep::Refused => Step::Ends(Ending::Over(Logon::Pending)),
    }
}

/// A byte while a page is sent.
fn take_sending<W: Wire>(
    client: Sending,
    byte: u8,
    pages: &Pages,
    done: &mut Outcomes,
    wire: &mut W,
) -> Step
    ensures { (x : List ℕ) (marks : List Mark) (said : List ℕ) → SendsAt pages.now client done.old.items x marks said
        → Moves pages.now (x ++ char_of byte ∷ []) said (W.state wire.old) (W.state wire.new) done.new.items result }
{
    match client.feed(byte) {
        SendStep::Wait(next) => Step::On(Stage::Sending(next)),
        SendStep::Again(next) => say_block(next, wire),
        SendStep::NextBlock(next) => say_block(next, wire),
        SendStep::Done(next, outcome) => {
            note(outcome, done);
            begin(next, pages, done, wire)
        }
        SendStep::Closed(outcome) => {
            note(outcome, done);
            close(outcome, wire)
        }
    }
}

/// A byte while the client leaves.
fn take_leaving<W: Wire>(
    client: Leaving,
    byte: u8,
    pages: &Pages,
    done: &Outcomes,
    wire: &mut W,
) -> Step
    ensures { (x : List ℕ) (marks : List Mark) (said : List ℕ) → LeavesAt pages.now client done.now.items x marks said
        → Moves pages.now (x ++ char_of byte ∷ []) said (W.state wire.old) (W.state wire.new) done.now.items result }
{
    match client.feed(byte) {
        LeaveStep::Wait(next) => Step::On(Stage::Leaving(next)),
        LeaveStep::Gone => Step::Ends(Ending::Over(Logon::Granted)),
    }
}

/// Appends an outcome, where there is room for it.
pub(crate) fn note(outcome: Outcome, done: &mut Outcomes)
    ensures { length done.old.items + 1 ≤ MOST_PAGES → done.new.items ≡ done.old.items ++ outcome ∷ [] }
{
    let _ = done.try_push(outcome);
}

/// Says the logon line.
fn say_logon<W: Wire>(client: Calling, wire: &mut W) -> Step
    ensures { SpokeThen (W.state wire.old) (W.state wire.new) (logon_line client.password) (Step.On (Stage.Calling client)) Logon.Pending result }
{
    let mut line = [0; LONGEST_LOGON];
    let n = client.logon(&mut line);
    say_then(
        &line[..n],
        Step::On(Stage::Calling(client)),
        Logon::Pending,
        wire,
    )
}

/// Begins the next page, or leaves where none is left.
fn begin<W: Wire>(client: LoggedOn, pages: &Pages, done: &Outcomes, wire: &mut W) -> Step
    ensures { (x : List ℕ) (past : List Mark) (said : List ℕ) → ReaderStandsFor client x past → Between pages.now (drop (length done.now.items) pages.now.pages) past done.now.items said
        → Moves pages.now x said (W.state wire.old) (W.state wire.new) done.now.items result }
{
    let k = done.len();
    if k < pages.count() {
        return say_block(client.start(pages.id(k), pages.text(k)), wire);
    }
    say_then(
        &GOOD_BYE,
        Step::On(Stage::Leaving(client.leave())),
        Logon::Granted,
        wire,
    )
}

/// Says good-bye after a page whose tries are spent. The call ends in every case.
fn close<W: Wire>(outcome: Outcome, wire: &mut W) -> Step
    ensures spent { outcome ≡ Outcome.TriesSpent → SpokeThen (W.state wire.old) (W.state wire.new) GOOD_BYE (Step.Ends (Ending.Over Logon.Granted)) Logon.Granted result }
    ensures other { outcome ≢ Outcome.TriesSpent → SpokeThen (W.state wire.old) (W.state wire.new) [] (Step.Ends (Ending.Over Logon.Granted)) Logon.Granted result }
{
    let over = Step::Ends(Ending::Over(Logon::Granted));
    if outcome == Outcome::TriesSpent {
        return say_then(&GOOD_BYE, over, Logon::Granted, wire);
    }
    over
}

/// Says a page's current block.
fn say_block<W: Wire>(client: Sending, wire: &mut W) -> Step
    ensures { SpokeThen (W.state wire.old) (W.state wire.new) (block_at client.content client.acks) (Step.On (Stage.Sending client)) Logon.Granted result }
{
    if let Err(Failed) = put_block(&client, wire) {
        return Step::Ends(Ending::Lost(Logon::Granted));
    }
    Step::On(Stage::Sending(client))
}

/// Says a page's current block on the open connection.
fn put_block<W: Wire>(client: &Sending, wire: &mut W) -> Result<(), Failed>
    ensures { Speaks (W.state wire.old) (W.state wire.new) (block_at client.now.content client.now.acks) result }
{
    let mut open = Saying::over(wire);
    client.put(&mut open)
}

/// Says a piece and goes on so. The line is lost where that fails.
fn say_then<W: Wire>(piece: &[u8], next: Step, logon: Logon, wire: &mut W) -> Step
    ensures { SpokeThen (W.state wire.old) (W.state wire.new) piece.now next logon result }
{
    if let Err(Failed) = say(piece, wire) {
        return Step::Ends(Ending::Lost(logon));
    }
    next
}

/// Says a piece on the open connection.
pub(crate) fn say<W: Wire>(piece: &[u8], wire: &mut W) -> Result<(), Failed>
    ensures { Speaks (W.state wire.old) (W.state wire.new) piece.now result }
{
    let mut open = Saying::over(wire);
    open.put(piece)
}
