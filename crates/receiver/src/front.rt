//! Hunting for a sync word, and the lock that follows it: docs/profile.md, "lock".

ghost use Rattle.std.specs.Prelude.{◌≡◌, ◌%◌, length, ℕ, [], ◌∷◌, ◌++◌, Bool, List, Option};
ghost use Rattle.receiver.specs.Steps.{HuntsThrough};
ghost use Rattle.receiver.specs.Stretches.{is_sync as is_sync_of};

use crate::places::{first_sync, low_word};
use crate::register::Register;
use bch31::distance;
use codeword::{SLOTS, SYNC};
use std::marker::Model;
use wires::piece::Piece;

/// The most wrong bits of a sync word that is taken for one.
const SYNC_TOLERANCE: u32 = 2;

/// A hunt for a sync word. It keeps the last 32 bits that it was fed.
#[derive(Drop)]
pub struct Hunting {
    register: Register,
}

impl Model for Hunting {
    ghost use Rattle.std.specs.Prelude.{List, Bool};

    ghost Value = { List Bool };

    ghost view = { λ h. h.register };
}

/// The lock that follows a sync word: 16 slots, a sync word, 16 slots, and so on.
#[derive(Drop)]
pub struct Locked {
    register: Register,
    place: u32,
}

impl Model for Locked {
    ghost use Rattle.std.specs.Prelude.{◌≤◌, ◌<◌, length};
    ghost use Rattle.codeword.specs.declared.batches.TheConstants.{SLOTS};
    ghost use Rattle.receiver.specs.Locks.{Lock, lock_of};

    ghost Value = { Lock };

    ghost view = { λ l. lock_of l.place l.register };

    ghost invariant = { λ l. (l.place ≤ SLOTS) × (length l.register < 32) };
}

/// What a hunt does at a bit.
#[derive(Drop)]
pub enum HuntStep {
    /// No sync word yet: the last 32 bits of this hunt are fewer, or differ from SYNC in more than two.
    Still(Hunting),
    /// The last 32 bits differ from SYNC in at most two.
    Found(Locked),
}

/// What a lock does at a bit.
#[derive(Drop)]
pub enum LockStep {
    /// The bit completes no word.
    Still(Locked),
    /// The bit completes the word of a slot: the place, 0 to 15, and the word as heard.
    Slot(Locked, u32, u32),
    /// The bit completes a word at a sync place that differs from SYNC in at most two bits.
    Batch(Locked),
    /// The bit completes a word at a sync place that differs from SYNC in more than two bits. The hunt begins with the next bit.
    Lost(Hunting),
}

impl Hunting {
    ghost use Rattle.receiver.specs.Steps.{HuntGoesOn};
    ghost use Rattle.receiver.specs.Locks.{Hunts};

    /// A hunt that was fed no bit.
    #[inline(always)]
    pub fn new() -> Hunting
        ensures { Hunts result [] }
    {
        Hunting {
            register: Register::new(),
        }
    }

    /// Takes the next bit.
    #[inline(always)]
    pub fn feed(self, bit: bool) -> HuntStep
        ensures step { (bits : List Bool) → Hunts self bits → HuntGoesOn result (bits ++ bit ∷ []) }
    {
        let mut register = self.register;
        register.push(bit);
        if register.is_full() && is_sync(register.word()) {
            HuntStep::Found(Locked::new())
        } else {
            HuntStep::Still(Hunting { register })
        }
    }
}

impl Locked {
    ghost use Rattle.receiver.specs.Steps.{LockGoesOn, HasSlotPlace};
    ghost use Rattle.receiver.specs.Locks.{LockHolds, lock_of};

    /// A lock whose next word stands in the first slot.
    #[inline(always)]
    fn new() -> Locked
        ensures { result ≡ lock_of 0 [] }
    {
        Locked {
            place: 0,
            register: Register::new(),
        }
    }

    /// Takes the next bit.
    #[inline(always)]
    pub fn feed(self, bit: bool) -> LockStep
        ensures step { (bits : List Bool) → LockHolds self bits → LockGoesOn result bits (bits ++ bit ∷ []) }
        ensures place { HasSlotPlace result }
    {
        let mut register = self.register;
        register.push(bit);
        if !register.is_full() {
            return LockStep::Still(Locked {
                place: self.place,
                register,
            });
        }
        let word = register.word();
        if self.place < SLOTS {
            LockStep::Slot(
                Locked {
                    place: self.place + 1,
                    register: Register::new(),
                },
                self.place,
                word,
            )
        } else if is_sync(word) {
            LockStep::Batch(Locked::new())
        } else {
            LockStep::Lost(Hunting::new())
        }
    }
}

/// A front end: a hunt or a lock, changed in place.
#[derive(Drop)]
pub struct Front {
    /// The last bits that came in a hunt, or the bits of a lock's next word that have come.
    register: Register,
    is_locked: bool,
    /// The place of a lock's next word.
    place: u32,
}

impl Model for Front {
    ghost use Rattle.std.specs.Prelude.{◌≡◌, ◌≤◌, ◌<◌, length, true};
    ghost use Rattle.codeword.specs.declared.batches.TheConstants.{SLOTS};
    ghost use Rattle.receiver.specs.Fronts.{FrontEnd, front_end_of};

    ghost Value = { FrontEnd };

    ghost view = { λ f. front_end_of f.is_locked f.place f.register };

    ghost invariant = { λ f. (f.place ≤ SLOTS) × (f.is_locked ≡ true → length f.register < 32) };
}

/// What a front end meets at a bit.
#[derive(Clone, Copy, Debug, PartialEq, Eq)]
pub enum FrontEvent {
    /// The bit completes no sync word and no slot, and the lock isn't lost.
    Still,
    /// A sync word was found, or is good at its place.
    Batch,
    /// The bit completes the word of a slot: the place, 0 to 15, and the word as heard.
    Slot(u32, u32),
    /// The lock is lost.
    Lost,
}

impl Front {
    ghost use Rattle.receiver.specs.Fronts.{FrontIsAt, FrontStandsFor, HasUnderWay};
    ghost use Rattle.receiver.specs.FrontSteps.{Shows, HearsPage, FrontGoesOn, HasFrontPlace, StaysAt};
    ghost use Rattle.receiver.specs.Heard.{HeardPage, heard};
    ghost use Rattle.receiver.specs.Last.{IsShorterFront};
    ghost use Rattle.receiver.specs.Slots.{entries};
    ghost use Rattle.receiver.specs.declared.front.FrontEvent.TheVariants.{Still};
    ghost use Rattle.std.specs.Prelude.{◌<◌, None, length};
    ghost use Rattle.wires.specs.Pieces.{taken_of};

    /// A hunt that was fed no bit.
    #[inline(always)]
    pub fn new() -> Front
        ensures stands { FrontStandsFor result [] }
        ensures page { (listens : ℕ → Bool) → HasUnderWay listens result None [] }
        ensures start { FrontIsAt result [] [] None }
    {
        Front {
            register: Register::new(),
            is_locked: false,
            place: 0,
        }
    }

    /// Takes the first bits of a piece, up to the first that isn't Still, or all. No shorter front of them completes a sync word, a slot or a
    /// page.
    #[inline(always)]
    pub fn feed_piece(&mut self, piece: &mut Piece) -> FrontEvent
        ensures shows { (bits : List Bool) → FrontStandsFor self.old bits → Shows self.new result bits (bits ++ taken_of piece.old piece.new) }
        ensures hears { (listens : ℕ → Bool) (page : Option HeardPage) (bits : List Bool) → HasUnderWay listens self.old page bits
            → HearsPage listens page self.new result bits (bits ++ taken_of piece.old piece.new) }
        ensures goes { (bits : List Bool) (before : List (List ℕ)) (words : Option (List ℕ)) → FrontIsAt self.old bits before words
            → FrontGoesOn self.new result before words (bits ++ taken_of piece.old piece.new) }
        ensures place { HasFrontPlace result }
        ensures whole { piece.old ≡ taken_of piece.old piece.new ++ piece.new }
        ensures all { result ≡ Still → piece.new ≡ [] }
        ensures some { 0 < length piece.old → length piece.new < length piece.old }
        ensures last_entry { (bits front : List Bool) → FrontStandsFor self.old bits → IsShorterFront front (taken_of piece.old piece.new)
            → entries (bits ++ front) ≡ entries bits }
        ensures last_page { (listens : ℕ → Bool) (bits front : List Bool) → FrontStandsFor self.old bits → IsShorterFront front (taken_of piece.old piece.new)
            → heard listens (bits ++ front) ≡ heard listens bits }
        ensures last_goes { (bits front : List Bool) (before : List (List ℕ)) (words : Option (List ℕ)) → FrontIsAt self.old bits before words
            → IsShorterFront front (taken_of piece.old piece.new) → StaysAt (bits ++ front) before words }
    {
        if !self.is_locked {
            if !find_sync(&mut self.register, piece) {
                return FrontEvent::Still;
            }
            self.register.clear();
            self.is_locked = true;
            self.place = 0;
            return FrontEvent::Batch;
        }
        self.register.fill(piece);
        if !self.register.is_full() {
            return FrontEvent::Still;
        }
        let word = self.register.word();
        self.register.clear();
        let place = self.place;
        if place < SLOTS {
            self.place = place + 1;
            FrontEvent::Slot(place, word)
        } else if is_sync(word) {
            self.place = 0;
            FrontEvent::Batch
        } else {
            self.is_locked = false;
            FrontEvent::Lost
        }
    }

    /// Takes the next bit.
    #[inline(always)]
    pub fn feed(&mut self, bit: bool) -> FrontEvent
        ensures shows { (bits : List Bool) → FrontStandsFor self.old bits → Shows self.new result bits (bits ++ bit ∷ []) }
        ensures hears { (listens : ℕ → Bool) (page : Option HeardPage) (bits : List Bool) → HasUnderWay listens self.old page bits
            → HearsPage listens page self.new result bits (bits ++ bit ∷ []) }
        ensures goes { (bits : List Bool) (before : List (List ℕ)) (words : Option (List ℕ)) → FrontIsAt self.old bits before words
            → FrontGoesOn self.new result before words (bits ++ bit ∷ []) }
        ensures place { HasFrontPlace result }
    {
        self.register.push(bit);
        if !self.register.is_full() {
            return FrontEvent::Still;
        }
        let word = self.register.word();
        if !self.is_locked {
            if !is_sync(word) {
                return FrontEvent::Still;
            }
            self.register.clear();
            self.is_locked = true;
            self.place = 0;
            return FrontEvent::Batch;
        }
        self.register.clear();
        let place = self.place;
        if place < SLOTS {
            self.place = place + 1;
            FrontEvent::Slot(place, word)
        } else if is_sync(word) {
            self.place = 0;
            FrontEvent::Batch
        } else {
            self.is_locked = false;
            FrontEvent::Lost
        }
    }
}

/// Takes the bits of a piece up to the first with which the register has 32 that are near SYNC, and answers whether there is one. Else it
/// takes all.
#[inline(always)]
fn find_sync(register: &mut Register, piece: &mut Piece) -> bool
    ensures { HuntsThrough register.old register.new piece.old piece.new result }
{
    if register.room() == 0 {
        return scan(register, piece);
    }
    while let Some(bit) = piece.pop() {
        register.push(bit);
        if register.is_full() && is_sync(register.word()) {
            return true;
        }
    }
    false
}

/// The same where the register is full: it looks at the words of the register and the piece together.
#[inline(always)]
fn scan(register: &mut Register, piece: &mut Piece) -> bool
    requires { length register.old ≡ 32 }
    ensures { HuntsThrough register.old register.new piece.old piece.new result }
{
    let count = piece.len();
    let window = (u64::from(register.word()) << count) | piece.number();
    match first_sync(window, count) {
        Some(k) => {
            piece.skip(k + 1);
            true
        }
        None => {
            register.hold(low_word(window));
            piece.skip(count);
            false
        }
    }
}

/// Whether the word differs from SYNC in at most two bits.
#[inline(always)]
pub(crate) fn is_sync(word: u32) -> bool
    ensures { result ≡ is_sync_of word }
{
    distance(word, SYNC) <= SYNC_TOLERANCE
}
