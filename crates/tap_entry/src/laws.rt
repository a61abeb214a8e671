//! What the definitions say, whatever is heard and whatever a file has.

ghost use Rattle.std.specs.Prelude.{◌≡◌, ◌++◌, ℕ, List, Option};
ghost use Rattle.tap_entry.specs.Client.{Client, PageToSend};
ghost use Rattle.tap_entry.specs.Marks.{AreMarks};
ghost use Rattle.tap_entry.specs.PagesFile.{FileContent, IsFile, IsWrongLine};
ghost use Rattle.tap_entry.specs.declared.hearing.Mark.{Mark};
ghost use Rattle.tap_entry.specs.declared.outcomes.Outcome.{Outcome};

/// Each list of characters has exactly one list of marks, and the marks of a front of it are the first of all.
pub fn one_list_of_marks()
    ensures some { (x : List ℕ) → (marks : List Mark) × AreMarks x marks }
    ensures only { (x : List ℕ) (marks others : List Mark) → AreMarks x marks → AreMarks x others → marks ≡ others }
    ensures fronts { (x y : List ℕ) (front whole : List Mark) → AreMarks x front → AreMarks (x ++ y) whole → (more : List Mark) × (whole ≡ front ++ more) }
{}

/// Outcomes and what is said are functions of the password, the pages and the marks.
pub fn one_client()
    ensures some { (password : Option (List ℕ)) (pages : List PageToSend) (marks : List Mark) → (outcomes : List Outcome) × ((said : List ℕ) × Client password pages marks outcomes said) }
    ensures only { (password : Option (List ℕ)) (pages : List PageToSend) (marks : List Mark) (outcomes : List Outcome) (said : List ℕ) (others : List Outcome) (other : List ℕ)
        → Client password pages marks outcomes said → Client password pages marks others other → (outcomes ≡ others) × (said ≡ other) }
{}

/// A file says one thing, or it has one first wrong line, and not both.
pub fn one_file()
    ensures told { (bytes : List ℕ) (told other : FileContent) → IsFile bytes told → IsFile bytes other → told ≡ other }
    ensures line { (bytes : List ℕ) (n m : ℕ) → IsWrongLine bytes n → IsWrongLine bytes m → n ≡ m }
    ensures apart { (bytes : List ℕ) (told : FileContent) (n : ℕ) → IsFile bytes told → IsWrongLine bytes n → ⊥ }
{}
