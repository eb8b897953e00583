// The last views that a replica accepted.
ghost use Rattle.std.specs.Prelude.{◌≡◌, [], ◌∷◌, ◌++◌, ◌==◌, map, find};
ghost use Rattle.std.specs.Option.{option_map};
ghost use Rattle.protocol.specs.Accept.{latest};
ghost use Rattle.protocol.specs.Standing.{note_of};
ghost use Rattle.holdings.specs.Kept.{kept_note};

use super::rooms::MOST_NOTES;
use arrayvec::ArrayVec;
use std::marker::Model;
use terms::{Order, View};

/// An accepted view, with the low and the top of its NEW-VIEW.
#[derive(Clone, Copy, PartialEq, Eq, Debug, Default)]
pub struct Noted {
    pub view: View,
    pub low: Order,
    pub top: Order,
}

/// The accepted views that are remembered, the latest last.
#[derive(Drop)]
pub struct Notes {
    list: ArrayVec<Noted, { MOST_NOTES }>,
}

impl Model for Notes {
    ghost use Rattle.std.specs.Prelude.{List, map};
    ghost use Rattle.protocol.specs.Replicas.{Noted};
    ghost use Rattle.holdings.specs.Kept.{kept_note};

    ghost Value = { List Noted };

    ghost view = { λ n. map kept_note n.list.items };
}

impl Notes {
    /// View 0 alone, which counts as accepted with low and top 0.
    pub fn new() -> Notes
        ensures { result ≡ record { view = 0; low = 0; top = 0 } ∷ [] }
    {
        let mut list = ArrayVec::new();
        list.push(Noted::default());
        Notes { list }
    }

    /// Remembers one view more. Of those that are too many the oldest is forgotten.
    pub fn note(&mut self, noted: Noted)
        ensures { self.new ≡ latest (self.old ++ kept_note noted ∷ []) }
    {
        if self.list.is_full() {
            self.list.remove(0);
        }
        self.list.push(noted);
    }

    /// What is remembered of a view.
    pub fn of(&self, view: View) -> Option<Noted>
        ensures { option_map kept_note result ≡ note_of view.0 self.now }
    {
        note_of(self.list.as_slice(), view)
    }

    /// All that is remembered, the latest last.
    pub fn as_slice(&self) -> &[Noted]
        ensures { map kept_note result.now ≡ self.now }
    {
        self.list.as_slice()
    }
}

// The note of a view.
fn note_of(notes: &[Noted], view: View) -> Option<Noted>
    ensures { result ≡ find (λ k. k.view.0 == view.0) notes.now }
{
    notes.iter().copied().find(|noted| noted.view == view)
}
