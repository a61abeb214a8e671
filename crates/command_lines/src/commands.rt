//! The command lines: docs/profile.md, "command lines".

ghost use Rattle.std.specs.Prelude.{◌≡◌, ℕ, List, MatchOption};
ghost use Rattle.command_lines.specs.Commands.{AreCommand, AreOne, ArePlay, AreSend, AreShow, AreStation, AreLine, AreTrial, IsCountWord, IsSeedWord, texts};
ghost use Rattle.command_lines.specs.Meant.{meant};

use crate::capcodes::capcode_of;
use crate::load_words::{LoadRun, load_line};
use crate::receivers::{Receivers, receivers_of};
use codeword::Capcode;

/// A command with its words.
#[derive(Drop)]
pub enum CommandLine<'a> {
    /// `one CAPCODE`
    One(Capcode),
    /// `load SEED COUNT`
    Load(LoadRun),
    /// `play AIR RECEIVER ..`
    Play(&'a str, Receivers),
    /// `play-line LINE RECEIVER ..`
    PlayLine(&'a str, Receivers),
    /// `line AIR LINE SEED`
    WriteLine(&'a str, &'a str, u64),
    /// `show AIR`
    Show(&'a str),
    /// `station ADDRESS SETTINGS AIR N`
    Station(StationLine<'a>),
    /// `snpp ADDRESS SETTINGS AIR N`
    Snpp(StationLine<'a>),
    /// `trial SETTINGS NOISE RECEIVER ..`
    Trial(&'a str, &'a str, Receivers),
    /// `twice SETTINGS NOISE RECEIVER ..`
    Twice(&'a str, &'a str, Receivers),
    /// `send ADDRESS PAGES`
    Send(&'a str, &'a str),
}

/// What follows `station` and `snpp`.
#[derive(Clone, Copy)]
pub struct StationLine<'a> {
    pub address: &'a str,
    pub settings: &'a str,
    pub air: &'a str,
    pub count: u32,
}

/// The most connections that a command line may ask for.
const MOST_CONNECTIONS: u32 = 1000;

/// The number from 1 to the most that a word of decimal digits says, without sign. None exactly where it says none.
pub(crate) fn count_of(word: &str, most: u32) -> Option<u32>
    ensures { MatchOption result ((count : ℕ) → IsCountWord most word.now count → ⊥) (λ count. IsCountWord most word.now count) }
{
    if word.starts_with('+') {
        return None;
    }
    let Ok(count) = word.parse::<u32>() else {
        return None;
    };
    if count < 1 || count > most {
        return None;
    }
    Some(count)
}

/// The number below 2^64 that a word of decimal digits says, without sign. None exactly where it says none.
pub(crate) fn seed_of(word: &str) -> Option<u64>
    ensures { MatchOption result ((seed : ℕ) → IsSeedWord word.now seed → ⊥) (λ seed. IsSeedWord word.now seed) }
{
    if word.starts_with('+') {
        return None;
    }
    word.parse::<u64>().ok()
}

/// Reads what follows `line`.
fn line_words(words: &[String]) -> Option<(&str, &str, u64)>
    ensures { MatchOption result ((air line : List ℕ) (seed : ℕ) → AreLine (texts words.now) air line seed → ⊥) (λ line. AreLine (texts words.now) line.0.now line.1.now line.2) }
{
    let [air, line, seed] = words else {
        return None;
    };
    if air.is_empty() || line.is_empty() {
        return None;
    }
    let (air, line) = (air.as_str(), line.as_str());
    if air == line {
        return None;
    }
    let Some(seed) = seed_of(seed.as_str()) else {
        return None;
    };
    Some((air, line, seed))
}

/// Reads what follows `station` or `snpp`.
fn station_line(words: &[String]) -> Option<StationLine<'_>>
    ensures { MatchOption result ((address settings air : List ℕ) (count : ℕ) → AreStation (texts words.now) address settings air count → ⊥)
        (λ line. AreStation (texts words.now) line.address.now line.settings.now line.air.now line.count) }
{
    let [address, settings, air, count] = words else {
        return None;
    };
    if address.is_empty() || settings.is_empty() || air.is_empty() {
        return None;
    }
    let Some(count) = count_of(count.as_str(), MOST_CONNECTIONS) else {
        return None;
    };
    Some(StationLine {
        address: address.as_str(),
        settings: settings.as_str(),
        air: air.as_str(),
        count,
    })
}

/// Reads what follows `trial` or `twice`.
fn trial_line(words: &[String]) -> Option<(&str, &str, Receivers)>
    ensures { MatchOption result ((settings noise : List ℕ) (receivers : List (List ℕ)) → AreTrial (texts words.now) settings noise receivers → ⊥)
        (λ line. AreTrial (texts words.now) line.0.now line.1.now line.2) }
{
    let [settings, noise, rest @ ..] = words else {
        return None;
    };
    if settings.is_empty() || noise.is_empty() {
        return None;
    }
    let Some(receivers) = receivers_of(rest) else {
        return None;
    };
    Some((settings.as_str(), noise.as_str(), receivers))
}

/// Reads what follows `send`.
fn send_line(words: &[String]) -> Option<(&str, &str)>
    ensures { MatchOption result ((address pages : List ℕ) → AreSend (texts words.now) address pages → ⊥) (λ line. AreSend (texts words.now) line.0.now line.1.now) }
{
    let [address, pages] = words else {
        return None;
    };
    if address.is_empty() || pages.is_empty() {
        return None;
    }
    Some((address.as_str(), pages.as_str()))
}

/// Reads what follows `one`.
fn one_line(words: &[String]) -> Option<Capcode>
    ensures { MatchOption result ((capcode : ℕ) → AreOne (texts words.now) capcode → ⊥) (λ capcode. AreOne (texts words.now) capcode) }
{
    let [word] = words else {
        return None;
    };
    capcode_of(word.as_str())
}

/// Reads what follows `show`.
fn show_line(words: &[String]) -> Option<&str>
    ensures { MatchOption result ((air : List ℕ) → AreShow (texts words.now) air → ⊥) (λ air. AreShow (texts words.now) air.now) }
{
    let [word] = words else {
        return None;
    };
    let air = word.as_str();
    if air.is_empty() {
        return None;
    }
    Some(air)
}

/// Reads what follows `play` or `play-line`.
fn play_line(words: &[String]) -> Option<(&str, Receivers)>
    ensures { MatchOption result ((air : List ℕ) (receivers : List (List ℕ)) → ArePlay (texts words.now) air receivers → ⊥) (λ line. ArePlay (texts words.now) line.0.now line.1) }
{
    let (word, rest) = words.split_first()?;
    let air = word.as_str();
    if air.is_empty() {
        return None;
    }
    let Some(receivers) = receivers_of(rest) else {
        return None;
    };
    Some((air, receivers))
}

/// Reads the words after the program's name. None exactly where they are no command's form.
pub fn parse(words: &[String]) -> Option<CommandLine<'_>>
    ensures { AreCommand (texts words.now) (meant result) }
{
    let (name, rest) = words.split_first()?;
    match name.as_str() {
        "one" => match one_line(rest) {
            Some(capcode) => Some(CommandLine::One(capcode)),
            None => None,
        },
        "load" => match load_line(rest) {
            Some(run) => Some(CommandLine::Load(run)),
            None => None,
        },
        "play" => match play_line(rest) {
            Some((air, receivers)) => Some(CommandLine::Play(air, receivers)),
            None => None,
        },
        "play-line" => match play_line(rest) {
            Some((line, receivers)) => Some(CommandLine::PlayLine(line, receivers)),
            None => None,
        },
        "line" => match line_words(rest) {
            Some((air, line, seed)) => Some(CommandLine::WriteLine(air, line, seed)),
            None => None,
        },
        "show" => match show_line(rest) {
            Some(air) => Some(CommandLine::Show(air)),
            None => None,
        },
        "station" => match station_line(rest) {
            Some(line) => Some(CommandLine::Station(line)),
            None => None,
        },
        "snpp" => match station_line(rest) {
            Some(line) => Some(CommandLine::Snpp(line)),
            None => None,
        },
        "trial" => match trial_line(rest) {
            Some((settings, noise, receivers)) => Some(CommandLine::Trial(
                settings, noise, receivers,
            )),
            None => None,
        },
        "twice" => match trial_line(rest) {
            Some((settings, noise, receivers)) => Some(CommandLine::Twice(
                settings, noise, receivers,
            )),
            None => None,
        },
        "send" => match send_line(rest) {
            Some((address, pages)) => Some(CommandLine::Send(address, pages)),
            None => None,
        },
        _ => None,
    }
}
