//! A session on the open connection: what is heard there is fed to an entry line, and what that answers is said.
//!
//! How it is built. A session starts the entry line and says its greeting. `talk` hears up to 4,096 bytes at a time, `take_all` goes
//! through what was heard, and `take` feeds one byte and says its reply. So each reply is said by one call before anything further is
//! heard. These functions answer how the session ends, where it does.
//!
//! What to mind. What a session comes to is the record `Ran` of `specs/Sessions.antt`. Each entry line ends each session by its millionth
//! character, so the loop of `talk` never comes to its end.

ghost use Rattle.std.specs.Prelude.{◌≡◌, ℕ, ◌∷◌, [], List, Some};
ghost use Rattle.page_pool.specs.Pool.{Pool as Waiting};
ghost use Rattle.serving.specs.Protocols.{StandsIn, unheard_in};
ghost use Rattle.serving.specs.Sessions.{Closes, GoesOn, Ran, SessionUnderWay};
ghost use Rattle.subscribers.specs.Parts.{Parts};
ghost use Rattle.wires.specs.Line.{Line};

use crate::entry::EntryLine;
use crate::session::SessionEnd;
use entry_line::characters::LAST_CHARACTER;
use page_pool::Pool;
use subscribers::Settings;
use wires::Failed;
use wires::wire::Wire;

/// So many bytes are heard at a time.
const HEARD_AT_ONCE: usize = 4096;

/// Serves the open connection by an entry line, and hangs up.
pub(crate) fn session_on<E: EntryLine, W: Wire>(
    entry: &mut E,
    settings: &Settings,
    pool: &mut Pool,
    wire: &mut W,
) -> SessionEnd
    ensures ran { Ran E.protocol settings.now pool.old.spare (W.state wire.old) (W.state wire.new) pool.old pool.new (E.state entry.new) result }
    ensures closes { Closes E.protocol settings.now pool.old.spare (W.state wire.old) (W.state wire.new) }
{
    let end = converse(entry, settings, pool, wire);
    let _ = wire.hang_up();
    end
}

/// Serves the open connection by an entry line, up to the end of the session.
fn converse<E: EntryLine, W: Wire>(
    entry: &mut E,
    settings: &Settings,
    pool: &mut Pool,
    wire: &mut W,
) -> SessionEnd
    ensures { GoesOn E.protocol settings.now pool.old.spare (W.state wire.old) (W.state wire.new) pool.old pool.new (E.state entry.new) [] [] (Some result) }
{
    entry.start(settings);
    if let Some(end) = greet(entry, wire) {
        return end;
    }
    talk(entry, settings, pool, wire)
}

/// Says the greeting of an entry line, if it has one.
fn greet<E: EntryLine, W: Wire>(entry: &E, wire: &mut W) -> Option<SessionEnd>
    ensures { (settings : Parts) (pool : Waiting) → StandsIn E.protocol settings pool.spare (E.state entry.now) [] (unheard_in E.protocol) pool.spare
        → GoesOn E.protocol settings pool.spare (W.state wire.old) (W.state wire.new) pool pool (E.state entry.now) [] [] result }
{
    let greeting = entry.greeting();
    if greeting.is_empty() {
        return None;
    }
    match wire.say(greeting) {
        Ok(()) => None,
        Err(Failed) => Some(SessionEnd::LineLost),
    }
}

/// Hears and answers, until the session ends.
fn talk<E: EntryLine, W: Wire>(
    entry: &mut E,
    settings: &Settings,
    pool: &mut Pool,
    wire: &mut W,
) -> SessionEnd
    ensures { (spare : ℕ) (first : Line) (before : Waiting)
        → SessionUnderWay E.protocol settings.now spare first (W.state wire.old) before pool.old (E.state entry.old) [] []
        → GoesOn E.protocol settings.now spare first (W.state wire.new) before pool.new (E.state entry.new) [] [] (Some result) }
{
    let mut buffer = [0; HEARD_AT_ONCE];
    for _ in 0..LAST_CHARACTER {
        match wire.hear(&mut buffer) {
            Ok(0) => return SessionEnd::HungUp,
            Ok(n) => {
                if let Some(end) = take_all(entry, settings, pool, &buffer[..n], wire) {
                    return end;
                }
            }
            Err(Failed) => return SessionEnd::LineLost,
        }
    }
    SessionEnd::Forced
}

/// Feeds what was heard, byte by byte.
fn take_all<E: EntryLine, W: Wire>(
    entry: &mut E,
    settings: &Settings,
    pool: &mut Pool,
    bytes: &[u8],
    wire: &mut W,
) -> Option<SessionEnd>
    ensures { (spare : ℕ) (first : Line) (before : Waiting) (heard : List ℕ)
        → SessionUnderWay E.protocol settings.now spare first (W.state wire.old) before pool.old (E.state entry.old) heard bytes.now
        → GoesOn E.protocol settings.now spare first (W.state wire.new) before pool.new (E.state entry.new) heard [] result }
{
    for byte in bytes {
        if let Some(end) = take(entry, settings, pool, *byte, wire) {
            return Some(end);
        }
    }
    None
}

/// Feeds a byte that was heard, and says its reply.
fn take<E: EntryLine, W: Wire>(
    entry: &mut E,
    settings: &Settings,
    pool: &mut Pool,
    byte: u8,
    wire: &mut W,
) -> Option<SessionEnd>
    ensures { (spare : ℕ) (first : Line) (before : Waiting) (heard ahead : List ℕ)
        → SessionUnderWay E.protocol settings.now spare first (W.state wire.old) before pool.old (E.state entry.old) heard (byte ∷ ahead)
        → GoesOn E.protocol settings.now spare first (W.state wire.new) before pool.new (E.state entry.new) heard ahead result }
{
    let response = entry.respond(byte, settings, pool);
    if response.reply.is_empty() {
        return None;
    }
    let said = wire.say(response.reply);
    match response.end {
        Some(end) => Some(end),
        None => match said {
            Ok(()) => None,
            Err(Failed) => Some(SessionEnd::LineLost),
        },
    }
}
