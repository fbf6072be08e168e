//! The first word of a line.
ghost use Rattle.std.specs.Prelude.{◌≡◌};
ghost use Rattle.genie_script.specs.Lines.{keyword_text, keyword_of};

/// What the first word of a line says that follows.
#[derive(Clone, Copy, Debug, PartialEq, Eq)]
pub(crate) enum Keyword {
    Boot,
    Device,
    Spawn,
    Fork,
    Exit,
    Map,
    Alloc,
    Unmap,
    Protect,
    Read,
    Write,
    Output,
    Input,
    Send,
    Recv,
    Finish,
    Cancel,
    Pageout,
}

impl Keyword {
    const ALL: [Keyword; 18] = [
        Keyword::Boot,
        Keyword::Device,
        Keyword::Spawn,
        Keyword::Fork,
        Keyword::Exit,
        Keyword::Map,
        Keyword::Alloc,
        Keyword::Unmap,
        Keyword::Protect,
        Keyword::Read,
        Keyword::Write,
        Keyword::Output,
        Keyword::Input,
        Keyword::Send,
        Keyword::Recv,
        Keyword::Finish,
        Keyword::Cancel,
        Keyword::Pageout,
    ];

    /// The word itself.
    pub(crate) fn text(self) -> &'static [u8]
        ensures { result.now ≡ keyword_text self }
    {
        match self {
            Keyword::Boot => b"boot",
            Keyword::Device => b"device",
            Keyword::Spawn => b"spawn",
            Keyword::Fork => b"fork",
            Keyword::Exit => b"exit",
            Keyword::Map => b"map",
            Keyword::Alloc => b"alloc",
            Keyword::Unmap => b"unmap",
            Keyword::Protect => b"protect",
            Keyword::Read => b"read",
            Keyword::Write => b"write",
            Keyword::Output => b"out",
            Keyword::Input => b"in",
            Keyword::Send => b"send",
            Keyword::Recv => b"recv",
            Keyword::Finish => b"done",
            Keyword::Cancel => b"cancel",
            Keyword::Pageout => b"pageout",
        }
    }

    /// The keyword that a word is.
    #[tactic(auto, unfolding(crate::specs::Lines::keyword_of))]
    pub(crate) fn find(text: &[u8]) -> Option<Keyword>
        ensures { result ≡ keyword_of text.now }
    {
        Keyword::ALL
            .iter()
            .copied()
            .find(|keyword| keyword.text() == text)
    }
}
