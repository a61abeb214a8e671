//! Laws of the pages that a session accepts, of the whole way from clients to receivers, of the one outcome that a run can have, and of
//! the room that it takes.

ghost use Rattle.station.specs.AcceptedPages.{AreAcceptable};
ghost use Rattle.station.specs.AirRoom.{AirsFit, CallFits, ShelfFits, WireFits};
ghost use Rattle.station.specs.Delivered.{Delivered};
ghost use Rattle.station.specs.FitWorlds.{FitErrWithRoom, FitInMemory, FitWithRoom};
ghost use Rattle.serving.specs.InTurn.{AllInTurn};
ghost use Rattle.serving.specs.Protocols.{snpp, tap};
ghost use Rattle.station.specs.OneOutcome.{OneLoad, OneOne, OnePlay, OnePlayLine, OneShow, OneWriteLine};
ghost use Rattle.station.specs.OneRun.{OneRun};
ghost use Rattle.station.specs.OneSend.{OneSend};
ghost use Rattle.station.specs.OneStation.{OneStation};
ghost use Rattle.station.specs.OneTrial.{OneTrial};

/// From clients to receivers: where clients and the terminal of a station hear one another, and the transmissions of what it accepted
/// are heard with every preamble as it was sent and with at most two wrong bits in every other word, a receiver hears exactly the pages
/// that the clients mark Sent to its capcodes, whole, and those of one frame in order.
pub fn delivered()
    ensures { Delivered }
{}

/// Each page that a session of either entry line accepts under the settings of a file has a usable capcode, and a text that fits its function. This is
/// what `near_air` asks of the pages.
pub fn accepted_pages()
    ensures { AreAcceptable }
{}

/// What follows where connections were served in turn: what each connection, and each count of the wire, is afterwards; that a session is
/// lost only where a hear or a say failed; and that over a steady wire each session is whole, while the connections are fit.
pub fn served_in_turn()
    ensures { AllInTurn }
{}

/// Where no call fails, and there is memory, what a command comes to is determined: its status, what was said on each connection, and
/// what the output holds.
pub fn one_outcome()
    ensures play { OnePlay }
    ensures play_line { OnePlayLine }
    ensures write_line { OneWriteLine }
    ensures show { OneShow }
    ensures one { OneOne }
    ensures load { OneLoad }
    ensures station { OneStation tap }
    ensures snpp { OneStation snpp }
    ensures trial { OneTrial }
    ensures send { OneSend }
    ensures run { OneRun }
{}

/// The room that a station's air takes, by its cells and connections, and that its replies take, by what is to be heard. So an operator
/// knows that a shelf and a wire are fit.
pub fn air_room()
    ensures airs { AirsFit }
    ensures shelf { ShelfFits }
    ensures wire { WireFits }
    ensures call { CallFits }
{}

/// That the premises of `one_outcome` can be met: whatever a steady wire has to be heard and a steady shelf holds, with enough room the
/// objects are fit for each command whose files are there.
pub fn fit_with_room()
    ensures objects { FitWithRoom }
    ensures err { FitErrWithRoom }
    ensures memory { FitInMemory }
{}
