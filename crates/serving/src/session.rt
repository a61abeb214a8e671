//! The station, and one session of it on the open connection, of either entry line.
//!
//! How it is built. A session is `talking::session_on`, with the station's terminal for TAP, and with an `Snpp` of its own for SNPP.
//!
//! What to mind. A contract sees a station as its settings, its terminal and its pool (`specs/StationState.antt`). What a session comes to
//! is the record `Ran` of `specs/Sessions.antt`.

ghost use Rattle.std.specs.Prelude.{◌≡◌, ℕ, [], List, length, IfOk};
ghost use Rattle.page_pool.specs.Pool.{cells};
ghost use Rattle.serving.specs.Protocols.{snpp, tap};
ghost use Rattle.serving.specs.Sessions.{Closes, Ran};
ghost use Rattle.serving.specs.TapSessions.{TerminalStandsFor};
ghost use Rattle.snpp_entry.specs.State.{SnppState};
ghost use Rattle.tap_terminal.specs.Session.{Session};
ghost use Rattle.tap_terminal.specs.State.{unheard};

use crate::talking::session_on;
use page_pool::Pool;
use snpp_entry::Snpp;
use std::alloc::Global;
use std::marker::Model;
use subscribers::Settings;
use tap_terminal::{Report, Terminal};
use wires::Memory;
use wires::wire::Wire;

/// How a session ended.
#[derive(Clone, Copy, Debug, PartialEq, Eq)]
pub enum SessionEnd {
    /// Goodbye came, and was answered End.
    Ended,
    /// What was to be heard ended before an End.
    HungUp,
    /// The third wrong line came, or the millionth character: docs/profile.md, "session" and "length of a session".
    Forced,
    /// The line failed before an End was decided.
    LineLost,
}

/// The station: the settings, the pool of the pages that wait to be sent, and the terminal that answers its sessions. A contract sees
/// it as these three (`StationState`). The pool has the cells of the settings, whatever was called before.
#[derive(Drop)]
pub struct Station {
    pub(crate) settings: Settings,
    pub(crate) terminal: Terminal,
    pub(crate) pool: Pool,
}

impl Model for Station {
    ghost use Rattle.serving.specs.StationState.{StationState, station_state_code};

    ghost Value = { StationState };

    ghost coded = { station_state_code };

    ghost use Rattle.serving.specs.StationState.{station_state_of, IsReady};

    ghost view = { station_state_of };

    ghost invariant = { IsReady };
}

impl Station {
    /// A station with these settings, an empty pool of their cells, and no session yet. Memory comes only where there was none for the
    /// cells; the settings are dropped then. No later call takes memory.
    pub fn new(alloc: Global, settings: Settings) -> Result<Station, Memory>
        ensures settings { IfOk result (λ s. s.settings ≡ settings) }
        ensures no_pages { IfOk result (λ s. s.pool.live ≡ []) }
        ensures spare { IfOk result (λ s. s.pool.spare ≡ settings.cells) }
        ensures unheard { (spare : ℕ) → IfOk result (λ s. TerminalStandsFor settings spare s.desk [] unheard spare) }
    {
        let Ok(pool) = Pool::new(alloc, settings.cells()) else {
            return Err(Memory);
        };
        let terminal = Terminal::new(settings.password());
        Ok(Station {
            settings,
            terminal,
            pool,
        })
    }

    /// How many pages wait in the pool, from 0 to 65,536.
    pub fn pages(&self) -> u32
        ensures count { result ≡ length self.now.pool.live }
        ensures cells_are { cells self.now.pool ≡ self.now.settings.cells }
    {
        self.pool.count()
    }

    /// How often each answer came in the last session. Before the first session every number is 0.
    pub fn report(&self) -> Report
        ensures { (spare left : ℕ) (bytes : List ℕ) (session : Session)
            → TerminalStandsFor self.now.settings spare self.now.desk bytes session left → result ≡ session.report }
    {
        self.terminal.report()
    }

    /// Serves the open connection: begins a session, hears up to 4,096 bytes at a time, and says each reply by one call before it hears
    /// again. It hangs up at the end. The pages that were accepted are in the pool however the session ends, and no call takes memory.
    ///
    /// Ended comes exactly at goodbye, and Forced exactly where the third wrong line or the length ended the session, both also where
    /// the reply End couldn't be said. HungUp comes exactly where what was to be heard ended before an End and no `hear` and no `say`
    /// failed. LineLost comes exactly where one of these failed and no End had been decided, and never over a steady wire with a
    /// connection open that has room for the replies to all that is to be heard there. A `hang_up` that fails changes no answer.
    pub fn session<W: Wire>(&mut self, wire: &mut W) -> SessionEnd
        ensures settings { self.new.settings ≡ self.old.settings }
        ensures ran { Ran tap self.old.settings self.old.pool.spare (W.state wire.old) (W.state wire.new) self.old.pool self.new.pool self.new.desk result }
        ensures closes { Closes tap self.old.settings self.old.pool.spare (W.state wire.old) (W.state wire.new) }
        ensures cells_are { cells self.new.pool ≡ self.old.settings.cells }
    {
        session_on(&mut self.terminal, &self.settings, &mut self.pool, wire)
    }

    /// Serves the open connection by the SNPP entry line: says the greeting, hears up to 4,096 bytes at a time, and says each reply by one
    /// call before it hears again. It hangs up at the end. The pages that were queued are in the pool however the session ends, and no call
    /// takes memory. `report` stays that of the last TAP session.
    ///
    /// Ended comes exactly at Bye, and Forced exactly at TooLong, both also where the reply couldn't be said. HungUp comes exactly where
    /// what was to be heard ended before these and no `hear` and no `say` failed. LineLost comes exactly where one of these failed and none
    /// of these replies had been decided, and never over a steady wire with a connection open that has room for the greeting and the
    /// replies to all that is to be heard there. Where the greeting couldn't be said, nothing was heard. A `hang_up` that fails changes no
    /// answer.
    pub fn snpp_session<W: Wire>(&mut self, wire: &mut W) -> SessionEnd
        ensures settings { self.new.settings ≡ self.old.settings }
        ensures terminal { self.new.desk ≡ self.old.desk }
        ensures ran { (state : SnppState) × Ran snpp self.old.settings self.old.pool.spare (W.state wire.old) (W.state wire.new) self.old.pool self.new.pool state result }
        ensures closes { Closes snpp self.old.settings self.old.pool.spare (W.state wire.old) (W.state wire.new) }
        ensures cells_are { cells self.new.pool ≡ self.old.settings.cells }
    {
        session_on(&mut Snpp::new(), &self.settings, &mut self.pool, wire)
    }
}
