//! Laws of the windows, and of longer bits.

ghost use Rattle.receiver.specs.Growing.{EntriesGrow, PagesGrow, ShownGrow};
ghost use Rattle.receiver.specs.Windows.{FillerEnds, FindsSyncWord};

/// Over a clean preamble a hunt finds the sync word that follows, with at most two wrong bits, and nothing before it. A word of a
/// preamble at a sync place ends the stretch.
pub fn windows()
    ensures found { FindsSyncWord }
    ensures ended { FillerEnds }
{}

/// What is heard of bits begins with what is heard of each front of them: the pages, the pages as they are shown, and the entries of
/// the table.
pub fn growing()
    ensures pages { PagesGrow }
    ensures shown { ShownGrow }
    ensures entries { EntriesGrow }
{}
