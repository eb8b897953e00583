// The words that the entries of a group begin with.
ghost use Rattle.std.specs.Prelude.{◌≡◌};
ghost use Rattle.script.specs.Verbs.{verb_word, verb_of};

/// What an entry of a group does.
#[derive(Clone, Copy)]
pub(crate) enum Verb {
    Other,
    Used,
    Ask,
    Take,
    Vote,
    Carry,
    Mark,
    Suspect,
    Open,
    Show,
    Certify,
    Deliver,
    Pump,
}

impl Verb {
    const ALL: [Verb; 13] = [
        Verb::Other,
        Verb::Used,
        Verb::Ask,
        Verb::Take,
        Verb::Vote,
        Verb::Carry,
        Verb::Mark,
        Verb::Suspect,
        Verb::Open,
        Verb::Show,
        Verb::Certify,
        Verb::Deliver,
        Verb::Pump,
    ];

    // The word that such an entry begins with.
    fn word(self) -> &'static [u8]
        ensures { result.now ≡ verb_word self }
    {
        match self {
            Verb::Other => b"other",
            Verb::Used => b"used",
            Verb::Ask => b"ask",
            Verb::Take => b"take",
            Verb::Vote => b"vote",
            Verb::Carry => b"carry",
            Verb::Mark => b"mark",
            Verb::Suspect => b"suspect",
            Verb::Open => b"open",
            Verb::Show => b"show",
            Verb::Certify => b"certify",
            Verb::Deliver => b"deliver",
            Verb::Pump => b"pump",
        }
    }

    // What an entry that begins with this word does.
    #[tactic(auto, unfolding(crate::specs::Verbs::verb_of, crate::specs::Words::spelt))]
    pub(crate) fn of(word: &[u8]) -> Option<Verb>
        ensures { result ≡ verb_of word.now }
    {
        Verb::ALL.iter().copied().find(|verb| word == verb.word())
    }
}
