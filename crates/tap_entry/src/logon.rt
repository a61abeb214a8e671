//! The client before its logon is decided: docs/profile.md, "calling".

ghost use Rattle.std.specs.Prelude.{◌≡◌, ◌≤◌, ℕ, List, [], ◌++◌, drop, Some};
ghost use Rattle.entry_line.specs.Chars.{char_of};
ghost use Rattle.tap_entry.specs.Client.{logon_line};
ghost use Rattle.tap_entry.specs.States.{CallingFor, CallsFurther, call_by};
ghost use Rattle.tap_entry.specs.declared.hearing.Mark.{Mark};

use crate::hearing::{Listener, Mark};
use crate::transfer::LoggedOn;
use entry_line::characters::{CR, PASSWORD_SIZE};
use std::marker::Model;
use tap_block::control::ESC;

/// The logon line is refused at most this many times before the client is refused with it.
const MOST_REFUSALS: u8 = 2;

/// The characters of a logon line without a password: `ESC PG1` and CR.
const SHORTEST_LOGON: usize = 5;

/// The characters of the longest logon line: `ESC PG1`, a password and CR.
pub const LONGEST_LOGON: usize = 11;

/// A client whose logon isn't decided.
#[derive(Drop)]
pub struct Calling {
    listener: Listener,
    password: Option<[u8; PASSWORD_SIZE]>,
    /// How often the logon line was refused. None before it was said.
    refusals: Option<u8>,
}

impl Model for Calling {
    ghost use Rattle.tap_entry.specs.Held.{Caller};

    ghost Value = { Caller };

    ghost view = { λ s. record { ear = s.listener; password = s.password; refusals = s.refusals } };

    ghost invariant = { λ s. Unit {0} };
}

/// What a byte brings while the client calls.
#[derive(Drop)]
pub enum CallStep {
    /// Nothing is to be said and nothing is decided.
    Wait(Calling),
    /// The logon line is to be said.
    SayLogon(Calling),
    /// The client is logged on.
    Go(LoggedOn),
    /// The client is refused: at the third NAK after the logon line, or at `ESC EOT`.
    Refused,
}

impl Calling {
    /// A client with this password, or with none, that has heard nothing.
    pub fn new(password: Option<[u8; PASSWORD_SIZE]>) -> Calling
        ensures password { result.password ≡ password }
        ensures stands { CallingFor result [] [] [] }
    {
        Calling {
            listener: Listener::new(),
            password,
            refusals: None,
        }
    }

    /// Writes the logon line to the front of `into`, and answers its length in characters: 5 without a password, and 11 with one.
    /// The rest of `into` stays.
    pub fn logon(&self, into: &mut [u8; LONGEST_LOGON]) -> usize
        ensures line { into.new ≡ logon_line self.now.password ++ drop result into.old }
        ensures fits { result ≤ LONGEST_LOGON }
    {
        match &self.password {
            None => {
                into[..SHORTEST_LOGON].copy_from_slice(&[ESC, b'P', b'G', b'1', CR]);
                SHORTEST_LOGON
            }
            Some(password) => {
                *into = line_with(password);
                LONGEST_LOGON
            }
        }
    }

    /// Takes a byte that was heard.
    pub fn feed(self, byte: u8) -> CallStep
        ensures { (x : List ℕ) (marks : List Mark) (said : List ℕ) → CallingFor self x marks said → CallsFurther self x marks said (char_of byte) result }
    {
        let mut client = self;
        let mark = client.listener.feed(byte);
        client.take(mark)
    }

    /// Takes the mark that a byte completed.
    fn take(self, mark: Option<Mark>) -> CallStep
        ensures { result ≡ call_by self self.refusals mark }
    {
        let mut client = self;
        match (mark, client.refusals) {
            (Some(Mark::End), _) => CallStep::Refused,
            (Some(Mark::Id), None) => {
                client.refusals = Some(0);
                CallStep::SayLogon(client)
            }
            (Some(Mark::Go), Some(_)) => CallStep::Go(LoggedOn::with(client.listener)),
            (Some(Mark::Nak), Some(n)) => {
                if n >= MOST_REFUSALS {
                    return CallStep::Refused;
                }
                client.refusals = Some(n + 1);
                CallStep::SayLogon(client)
            }
            _ => CallStep::Wait(client),
        }
    }
}

/// The logon line with this password.
fn line_with(password: &[u8; PASSWORD_SIZE]) -> [u8; LONGEST_LOGON]
    ensures { result ≡ logon_line (Some password.now) }
{
    let [a, b, c, d, e, f] = *password;
    [ESC, b'P', b'G', b'1', a, b, c, d, e, f, CR]
}
